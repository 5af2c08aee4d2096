//! `Waiting`: which changes are done and which may come next. A step alters at most three counts.

ghost use Rattle.std.specs.Prelude.{◌≡◌, ◌<◌, ℕ, None, Some, Bool, true, false, ◌&&◌, ◌||◌, nat_eq, slice_index, slice_set, List, map, length, slice_get, All, IfOk};
ghost use Rattle.std.specs.List.{list_all};
ghost use Rattle.edit_change.specs.Nesting.{first_clash};
ghost use Rattle.edit_change.specs.inner.DocumentOrder.{FitsSome};
ghost use Rattle.edit_change.specs.inner.Fate.{fate};
ghost use Rattle.edit_change.specs.declared.change.Change.{Change};
ghost use Rattle.edit_steps.specs.Schedule.{is_complete, is_ready};
ghost use Rattle.edit_steps.specs.inner.Waiting.{IsWaiting, HasChange, done_list};
ghost use Rattle.edit_steps.specs.inner.Waits.{is_settled, standing_in};

use crate::order::followers::Followers;
use crate::order::waits::Waits;
use edit_change::{Change, Fate};
use std::alloc::{AllocError, Global};

/// How far a change is.
#[derive(Clone, Copy)]
enum Standing {
    /// It is never carried out.
    Dropped,
    Undone,
    Done,
}

/// Changes that are carried out one at a time: which of them are done, and which of the others may be the next one.
#[derive(Drop)]
pub struct Waiting {
    standings: Vec<Standing>,
    // Each change waits for what it owns, for the insert after it in its gap, and for the inserts after the token that it
    // replaces.
    owners: Waits,
    gaps: Waits,
    tokens: Waits,
}

impl Standing {
    // Whether nothing is left to do for it.
    fn is_settled(self) -> bool
        ensures { result ≡ is_settled self }
    {
        match self {
            Standing::Dropped => true,
            Standing::Undone => false,
            Standing::Done => true,
        }
    }
}

fn all_are_settled(standings: &[Standing]) -> bool
    ensures { result ≡ list_all is_settled standings.now }
{
    standings.iter().all(|standing| standing.is_settled())
}

fn standings(alloc: Global, fates: &[Fate]) -> Result<Vec<Standing>, AllocError>
    ensures { IfOk result (λ v. v.items ≡ map standing_in fates.now) }
{
    fates.iter().map(|fate| standing_in(*fate)).collect(alloc)
}

fn standing_in(fate: Fate) -> Standing
    ensures { result ≡ standing_in fate }
{
    match fate {
        Fate::Independent => Standing::Undone,
        Fate::Dropped => Standing::Dropped,
        Fate::Owned(_) => Standing::Undone,
    }
}

impl Waiting {
    /// Of these changes, of which no two clash, none is done yet. `fates` has what becomes of each.
    ///
    /// Takes time near linear in the paths of the changes.
    pub fn new(alloc: Global, changes: &[Change], fates: &[Fate]) -> Result<Waiting, AllocError>
        requires fit { All FitsSome changes.now }
        requires apart { first_clash changes.now ≡ None }
        requires fates { fates.now ≡ map (fate changes.now) changes.now }
        ensures waiting { IfOk result (IsWaiting changes.now (λ n. false)) }
        ensures none { IfOk result (λ w. done_list w ≡ map (λ c. false) changes.now) }
    {
        let followers = Followers::of(alloc, changes, fates)?;
        Ok(Waiting {
            standings: standings(alloc, fates)?,
            owners: Waits::new(alloc, followers.owner)?,
            gaps: Waits::new(alloc, followers.next_in_gap)?,
            tokens: Waits::new(alloc, followers.replacement)?,
        })
    }

    /// Whether a change may be carried out next: it is neither dropped nor done, and all that must come before it is
    /// done.
    pub fn ready(&self, number: usize) -> bool
        requires { HasChange self.now number }
        ensures { (changes : List Change) (done : ℕ → Bool) (change : Change) → IsWaiting changes done self.now
            → slice_get changes number ≡ Some change → result ≡ is_ready changes done (number, change) }
    {
        match self.standings[number] {
            Standing::Undone => self.is_free(number),
            Standing::Dropped => false,
            Standing::Done => false,
        }
    }

    // Whether a change waits for none.
    fn is_free(&self, number: usize) -> bool
        requires owners { number < length self.now.owners.counts.items }
        requires gaps { number < length self.now.gaps.counts.items }
        requires tokens { number < length self.now.tokens.counts.items }
        ensures { result ≡ (nat_eq (slice_index self.now.owners.counts.items number) 0
            && nat_eq (slice_index self.now.gaps.counts.items number) 0
            && nat_eq (slice_index self.now.tokens.counts.items number) 0) }
    {
        self.owners.is_free(number) && self.gaps.is_free(number) && self.tokens.is_free(number)
    }

    /// Whether each change that is not dropped is done.
    pub fn is_complete(&self) -> bool
        ensures { (changes : List Change) (done : ℕ → Bool)
            → IsWaiting changes done self.now → result ≡ is_complete changes done }
    {
        all_are_settled(&self.standings)
    }

    /// A change that may be carried out next is done.
    pub fn done(&mut self, number: usize)
        requires { HasChange self.old number }
        ensures waiting { (changes : List Change) (done : ℕ → Bool) (change : Change) → IsWaiting changes done self.old
            → slice_get changes number ≡ Some change → is_ready changes done (number, change) ≡ true
            → IsWaiting changes (λ n. nat_eq number n || done n) self.new }
        ensures list { done_list self.new ≡ slice_set (done_list self.old) number true }
    {
        self.standings[number] = Standing::Done;
        self.owners.release(number);
        self.gaps.release(number);
        self.tokens.release(number);
    }
}
