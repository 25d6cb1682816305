//! Where the pages of an entry lie, and which of them counts.

ghost use Rattle.std.specs.Prelude.{◌≡◌, ◌<◌, ◌≤◌, ◌+◌, ◌*◌, length};
ghost use Rattle.rio_base.specs.Image.{registry_pages};
ghost use Rattle.rio_model.specs.Cover.{frame_page};
ghost use Rattle.rio_model.specs.Registry.{HasLayout, IsValid, ShadowRule, frames_of, page_of_entry};

use crate::entry::{PAGE_ENTRIES, read_entry};
use rio_base::{Machine, Page, WordAt};

/// The header's word of the number of frames.
const FRAMES: WordAt = WordAt(2);

/// The header's word of the gate.
pub(crate) const GATE: WordAt = WordAt(4);

/// The pages of header and shadow frames.
const FIXED_PAGES: u32 = 17;

/// How many frames, and so entries, there are.
pub fn frame_count<M: Machine>(m: &M) -> u32
    requires layout { HasLayout (M.contents m.now).words (M.run m.now).scratch }
    ensures { result ≡ frames_of (M.contents m.now).words }
{
    m.load(FRAMES) as u32
}

/// How many pages the registry has.
#[tactic(auto, using(crate::proofs::PagePlaces::registry_is))]
fn registry_page_count<M: Machine>(m: &M) -> u32
    requires layout { HasLayout (M.contents m.now).words (M.run m.now).scratch }
    ensures { result ≡ registry_pages (frames_of (M.contents m.now).words) }
{
    (frame_count(m) + PAGE_ENTRIES - 1) / PAGE_ENTRIES
}

/// The page of frame `k`, `k` below the number of frames.
#[tactic(auto, using(crate::proofs::PagePlaces::registry_small, crate::proofs::PagePlaces::frame_is, crate::proofs::PagePlaces::frame_within))]
pub fn frame_page_of<M: Machine>(m: &M, k: u32) -> Page
    requires layout { HasLayout (M.contents m.now).words (M.run m.now).scratch }
    requires entry { k < frames_of (M.contents m.now).words }
    ensures page { result.0 ≡ frame_page (M.contents m.now).words k }
    ensures within { 512 * result.0 + 512 ≤ length (M.contents m.now).words }
{
    Page(registry_page_count(m) + FIXED_PAGES + k)
}

/// Shadow page `s`, from 1 to 16.
#[tactic(auto, using(crate::proofs::PagePlaces::registry_small, crate::proofs::PagePlaces::shadow_within))]
pub fn shadow_page_of<M: Machine>(m: &M, s: u32) -> Page
    requires layout { HasLayout (M.contents m.now).words (M.run m.now).scratch }
    requires shadow { s ≤ 16 }
    ensures page { result.0 ≡ registry_pages (frames_of (M.contents m.now).words) + s }
    ensures within { 512 * result.0 + 512 ≤ length (M.contents m.now).words }
{
    Page(registry_page_count(m) + s)
}

/// The page that counts for entry `k`, which is valid: its shadow page, where the gate is 1 and it has one, else its frame.
/// No valid entry may have a shadow past the 16.
pub fn counted_page_of<M: Machine>(m: &M, k: u32) -> Page
    requires layout { HasLayout (M.contents m.now).words (M.run m.now).scratch }
    requires shadows { ShadowRule (M.contents m.now).words }
    requires valid { IsValid (M.contents m.now).words k }
    ensures page { result.0 ≡ page_of_entry (M.contents m.now).words k }
    ensures within { 512 * result.0 + 512 ≤ length (M.contents m.now).words }
{
    let updating = m.load(GATE) == 1;
    if !updating {
        return frame_page_of(m, k);
    }
    let shadow = read_entry(m, k).shadow;
    if shadow == 0 {
        return frame_page_of(m, k);
    }
    shadow_page_of(m, shadow as u32)
}
