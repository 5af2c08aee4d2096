//! `Waits`: for one reason, how many changes each one still waits for.

ghost use Rattle.std.specs.Prelude.{◌≡◌, ◌<◌, ◌-◌, ℕ, length, slice_index, nat_eq, count_by, IfOk};
ghost use Rattle.edit_steps.specs.inner.Followers.{link};
ghost use Rattle.edit_steps.specs.inner.Waits.{one_if, points_at};

use std::alloc::{AllocError, Global};

/// Changes that wait for others for one reason.
#[derive(Drop)]
pub(crate) struct Waits {
    // Of each change, the one that waits for it.
    links: Vec<Option<usize>>,
    // Of each change, for how many it waits that are not done.
    counts: Vec<usize>,
}

// How many links lead to each number.
fn counts(alloc: Global, links: &[Option<usize>]) -> Result<Vec<usize>, AllocError>
    ensures long { IfOk result (λ v. length v.items ≡ length links.now) }
    ensures counted { IfOk result (λ v. (n : ℕ) → n < length links.now
        → slice_index v.items n ≡ count_by (points_at n) links.now) }
{
    let mut counts = vec![in alloc; 0; links.len()]?;
    for link in links {
        if let Some(number) = *link {
            if number < counts.len() {
                counts[number] += 1;
            }
        }
    }
    Ok(counts)
}

impl Waits {
    /// Nothing is done yet.
    pub(crate) fn new(alloc: Global, links: Vec<Option<usize>>) -> Result<Waits, AllocError>
        ensures links { IfOk result (λ w. w.links ≡ links) }
        ensures long { IfOk result (λ w. length w.counts.items ≡ length links.items) }
        ensures counted { IfOk result (λ w. (n : ℕ) → n < length links.items
            → slice_index w.counts.items n ≡ count_by (points_at n) links.items) }
    {
        let counts = counts(alloc, &links)?;
        Ok(Waits { links, counts })
    }

    /// Whether a change waits for none.
    pub(crate) fn is_free(&self, number: usize) -> bool
        requires { number < length self.now.counts.items }
        ensures { result ≡ nat_eq (slice_index self.now.counts.items number) 0 }
    {
        self.counts[number] == 0
    }

    /// A change is done, so the one that waits for it waits for one fewer.
    pub(crate) fn release(&mut self, number: usize)
        requires { number < length self.old.links.items }
        ensures links { self.new.links ≡ self.old.links }
        ensures long { length self.new.counts.items ≡ length self.old.counts.items }
        ensures counts { (n : ℕ) → n < length self.old.counts.items
            → slice_index self.new.counts.items n
            ≡ slice_index self.old.counts.items n - one_if (points_at n (link self.old.links.items number)) }
    {
        if let Some(waiting) = self.links[number] {
            if waiting < self.counts.len() {
                self.counts[waiting] = self.counts[waiting].saturating_sub(1);
            }
        }
    }
}
