//! Requests on regions and their transactions, answered over a view of the region's words.

ghost use Rattle.std.specs.Prelude.{◌≡◌, List, ℕ, IsErr};
ghost use Rattle.rio_base.specs.Blocks.{EndsBy};
ghost use Rattle.rio_base.specs.Volume.{Goes};
ghost use Rattle.rio_model.specs.declared.node.RegionNode.{RegionNode};
ghost use Rattle.rio_model.specs.declared.state.State.{State};
ghost use Rattle.rio_model.specs.Paths.{IsPath};
ghost use Rattle.rio_requests.specs.Requests.{IsRequest};
ghost use Rattle.rio_model.specs.RegionMoves.{RestHeld};
ghost use Rattle.file_tree.specs.Memos.{InStep};
ghost use Rattle.region_view.specs.Views.{KeepsInode, OnRegion};
ghost use Rattle.vista_region.specs.Ends.{Fits};
ghost use Rattle.rio_core.specs.CallEnds.{CalledOn, IsAt, words_at};
ghost use Rattle.rio_core.specs.Lines.{Within};
ghost use Rattle.rio_core.specs.Serving.{RequestEnds, Serves, TellsFault};

use crate::replies::{begin_reply, fail_reply, get_reply, number_reply, txn_reply};
use file_tree::Memo;
use node_making::stand_at;
use region_view::RegionView;
use rio_base::{Stopped, Volume};
use rio_requests::{Reply, Request};
use std::alloc::Global;
use vista_region::OpenTable;

/// Answers a request on the region at a path, and on its transaction.
pub fn answer_region<V: Volume>(
    alloc: Global,
    view: &mut RegionView<V>,
    memo: &mut Memo,
    table: &mut OpenTable,
    path: &[u8],
    request: &Request,
) -> Result<Reply, Stopped>
    requires sound { V.sound view.old.v }
    requires serves { (s : State) × Serves view.old.shape (V.seen view.old.v) (V.kept view.old.v) table.old s }
    requires in_step { InStep view.old.shape (V.seen view.old.v).words memo.old }
    requires request { IsRequest request.now }
    requires path { IsPath path.now }
    requires at { IsAt path.now request.now }
    ensures answered { (s : State) → Serves view.old.shape (V.seen view.old.v) (V.kept view.old.v) table.old s → RequestEnds view.old.shape (V.seen view.new.v) (V.kept view.new.v) table.new s request.now result }
    ensures in_step { InStep view.new.shape (V.seen view.new.v).words memo.new }
    ensures shape { view.new.shape ≡ view.old.shape }
    ensures goes { Goes (V.health view.old.v) (V.below view.old.v) (V.health view.new.v) (V.below view.new.v) }
    ensures ends { EndsBy (V.health view.old.v) (V.health view.new.v) (TellsFault result) (IsErr result) }
    ensures sound { V.sound view.new.v }
{
    match stand_at(view, memo, path) {
        Ok(_) => answer_at(alloc, view, table, request),
        Err(fail) => fail_reply(fail),
    }
}

/// Answers a request on the region that the view stands on.
fn answer_at<V: Volume>(
    alloc: Global,
    view: &mut RegionView<V>,
    table: &mut OpenTable,
    request: &Request,
) -> Result<Reply, Stopped>
    requires sound { V.sound view.old.v }
    requires on { OnRegion view.old.shape (V.seen view.old.v) (V.kept view.old.v) view.old.ino.0 view.old.words }
    requires inode { KeepsInode (V.seen view.old.v).words view.old.ino.0 view.old.inode }
    requires fits { Fits table.old view.old.ino.0 view.old.words (words_at view.old.shape (V.seen view.old.v).words view.old.ino.0) }
    requires request { IsRequest request.now }
    requires at { (path : List ℕ) × IsAt path request.now }
    ensures answered { (s : State) (path : List ℕ) (r : RegionNode) → CalledOn view.old.shape (V.seen view.old.v).words (V.seen view.old.v).words table.old s path view.old.ino.0 view.old.words r → IsAt path request.now → RequestEnds view.old.shape (V.seen view.new.v) (V.kept view.new.v) table.new s request.now result }
    ensures rest { RestHeld view.old.shape view.old.ino.0 (V.seen view.old.v).words (V.seen view.new.v).words }
    ensures shape { view.new.shape ≡ view.old.shape }
    ensures goes { Goes (V.health view.old.v) (V.below view.old.v) (V.health view.new.v) (V.below view.new.v) }
    ensures ends { EndsBy (V.health view.old.v) (V.health view.new.v) (TellsFault result) (IsErr result) }
    ensures sound { V.sound view.new.v }
{
    let i = view.ino;
    match request {
        Request::Begin { .. } => Ok(begin_reply(table.begin(i))),
        Request::Range { off, len, .. } => txn_reply(table.set_range(view, i, *off, *len)),
        Request::Commit { .. } => txn_reply(table.commit(view, i)),
        Request::Abort { .. } => txn_reply(table.abort(view, i)),
        _ => answer_within(alloc, view, table, request),
    }
}

/// Answers a request on what lies in the region that the view stands on: its bytes and the blocks of its heap.
fn answer_within<V: Volume>(
    alloc: Global,
    view: &mut RegionView<V>,
    table: &mut OpenTable,
    request: &Request,
) -> Result<Reply, Stopped>
    requires sound { V.sound view.old.v }
    requires on { OnRegion view.old.shape (V.seen view.old.v) (V.kept view.old.v) view.old.ino.0 view.old.words }
    requires inode { KeepsInode (V.seen view.old.v).words view.old.ino.0 view.old.inode }
    requires fits { Fits table.old view.old.ino.0 view.old.words (words_at view.old.shape (V.seen view.old.v).words view.old.ino.0) }
    requires request { IsRequest request.now }
    requires within { Within request.now }
    ensures answered { (s : State) (path : List ℕ) (r : RegionNode) → CalledOn view.old.shape (V.seen view.old.v).words (V.seen view.old.v).words table.old s path view.old.ino.0 view.old.words r → IsAt path request.now → RequestEnds view.old.shape (V.seen view.new.v) (V.kept view.new.v) table.new s request.now result }
    ensures rest { RestHeld view.old.shape view.old.ino.0 (V.seen view.old.v).words (V.seen view.new.v).words }
    ensures shape { view.new.shape ≡ view.old.shape }
    ensures goes { Goes (V.health view.old.v) (V.below view.old.v) (V.health view.new.v) (V.below view.new.v) }
    ensures ends { EndsBy (V.health view.old.v) (V.health view.new.v) (TellsFault result) (IsErr result) }
    ensures sound { V.sound view.new.v }
{
    let i = view.ino;
    match request {
        Request::Put { off, bytes, .. } => {
            number_reply(table.put(view, i, *off, bytes.as_slice()))
        }
        Request::Get { off, len, .. } => get_reply(table.get(alloc, view, i, *off, *len)),
        Request::Alloc { units, .. } => number_reply(table.allocate(view, i, *units)),
        Request::Free { at, .. } => txn_reply(table.release(view, i, *at)),
        // The others are answered elsewhere.
        _ => unreachable!(),
    }
}
