//! One raw block of words.

ghost use Rattle.std.specs.Prelude.{◌≡◌, ◌<◌, ◌≤◌, ◌+◌, ◌*◌, ◌^◌, ◌++◌, ◌∷◌, [], ℕ, List, length, take, drop, slice_index, slice_set, IfOk};
ghost use Rattle.std.specs.Borrow.{sem};
ghost use base.Fml.{ftrue};
ghost use denote.RawPtr.{Ptr};
ghost use Rattle.phys_memory.specs.RawWords.{block_type, words_owned, words_lent};

use std::alloc::{AllocError, Allocator};
use std::marker::{Model, PhantomData};
use std::mem::{align_of, size_of};
use std::slice;

/// The words of a block, behind its pointer. They are written from the first on, and `left` is the room behind them.
///
/// It is not `Drop`, and so is a [`Lease`]: whoever has the two has to give them to [`RawWords::free`].
pub struct RawWords {
    ptr: *mut u64,
    ghost words: { List ℕ },
    ghost left: { ℕ },
}

impl Model for RawWords {
    ghost also_owns = { λ w. words_owned w.ptr w.words w.left };

    ghost also_shares = { λ w _ κ. words_lent w.ptr w.words w.left κ };
}

/// The right to give a block for `count` words back to the allocator that it is from. It takes no space.
pub struct Lease<A: Allocator> {
    from: PhantomData<A>,
    ghost alloc: { A },
    ghost ptr: { Ptr },
    ghost count: { ℕ },
}

impl<A: Allocator> Model for Lease<A> {
    ghost also_owns = { λ l. A.dealloc_token l.alloc (block_type l.count) l.ptr };

    ghost also_shares = { λ _ _ _. ftrue };
}

impl RawWords {
    ghost use Rattle.phys_memory.specs.WordsLent.{lends_words};

    /// A block for so many words, none of them written. The error means that there was no room for it.
    pub(crate) fn allocate<A: Allocator>(
        alloc: &A,
        count: usize,
    ) -> Result<(RawWords, Lease<A>), AllocError>
        requires { count * 8 < 2 ^ 63 }
        ensures { IfOk result (λ r. (r.0.words ≡ []) × (r.0.left ≡ count) × (r.1.ptr ≡ r.0.ptr) × (r.1.count ≡ count) × (r.1.alloc ≡ alloc.now)) }
    {
        match alloc.allocate(count * size_of::<u64>(), align_of::<u64>()) {
            Ok(block) => {
                let ptr = block as *mut u64;
                Ok((RawWords { ptr }, Lease { from: PhantomData }))
            }
            Err(error) => Err(error),
        }
    }

    /// Gives a block whose words are all written back.
    pub(crate) fn free<A: Allocator>(self, lease: Lease<A>, alloc: &A, count: usize)
        requires { (self.left ≡ 0) × (length self.words ≡ count) × (lease.ptr ≡ self.ptr) × (lease.count ≡ count) × (lease.alloc ≡ alloc.now) }
    {
        let RawWords { ptr } = self;
        let Lease { from: _ } = lease;
        unsafe {
            alloc.deallocate(ptr as *mut u8, count * size_of::<u64>(), align_of::<u64>());
        }
    }

    /// Writes the first word that is not written yet, which has the index `at`.
    pub(crate) fn push(&mut self, at: usize, v: u64)
        requires { (at ≡ length self.old.words) × (0 < self.old.left) }
        ensures words { self.new.words ≡ self.old.words ++ v ∷ [] }
        ensures left { self.new.left + 1 ≡ self.old.left }
        ensures place { self.new.ptr ≡ self.old.ptr }
    {
        unsafe { self.ptr.add(at).write(v) }
    }

    /// The word at an index.
    pub(crate) fn load(&self, at: usize) -> u64
        requires { at < length self.now.words }
        ensures { result ≡ slice_index self.now.words at }
    {
        unsafe { *self.ptr.add(at) }
    }

    /// Changes the word at an index.
    pub(crate) fn store(&mut self, at: usize, v: u64)
        requires { at < length self.old.words }
        ensures words { self.new.words ≡ slice_set self.old.words at v }
        ensures place { (self.new.ptr ≡ self.old.ptr) × (self.new.left ≡ self.old.left) }
    {
        unsafe { *self.ptr.add(at) = v }
    }

    /// Lends `count` words, from an index on.
    pub(crate) fn run(&self, from: usize, count: usize) -> &[u64]
        requires { from + count ≤ length self.now.words }
        ensures { result.now ≡ take count (drop from self.now.words) }
    {
        unsafe { slice::from_raw_parts(self.ptr.add(from), count) }
    }

    /// Lends all of the `count` words, to be changed.
    pub(crate) fn words_mut(&mut self, count: usize) -> &mut [u64]
        requires { count ≡ length self.old.words }
        ensures* writes_back { sem 𝓛 (lends_words self.entry result) }
        ensures value { result.now ≡ self.old.words }
    {
        unsafe { slice::from_raw_parts_mut(self.ptr, count) }
    }
}
