//! `Aimed`: a change's number with where it aims, by a path that is borrowed. Both engines work on lists of these. In a sweep over them
//! in document order what is open is such a list too: replacements that lie one in another, the innermost last.

ghost use Rattle.std.specs.Prelude.{ℕ, ◌<◌, ◌≤◌, ◌+◌, ◌≡◌, Bool, true, false, [], ◌∷◌, suc, not};
ghost use Rattle.edit_change.specs.Aim.{FirstIn, AfterElement, Over, aims_at_gap, starts_at, replaces};
ghost use Rattle.edit_change.specs.inner.Aimed.{aim_in, siblings_from, numbered, aims_of, has_parent};
ghost use Rattle.edit_change.specs.inner.Aimed.{some_path};
ghost use Rattle.std.specs.Prelude.{slice_get, ◌^◌, IfSome};
ghost use Rattle.std.specs.Cmp.Lexicographic.{slice_cmp};
ghost use Rattle.std.specs.Ordering.{nat_cmp, is_lt};
ghost use Rattle.std.specs.Option.{option_map_or};
ghost use Rattle.cst_core.specs.Path.{up_to};
ghost use Rattle.edit_change.specs.inner.Clash.{shares};
ghost use Rattle.edit_change.specs.inner.Open.{replaced, surrounds, Closes};
ghost use Rattle.edit_change.specs.inner.DocumentOrder.{on_the_way, site, stands_before};

use std::cmp::Ordering;

/// Where something aims, from the element at a path.
#[derive(Clone, Copy)]
pub enum AimForm {
    /// Before the first child of the node there.
    FirstIn,
    /// After the element there, among its siblings.
    AfterElement,
    /// Over the element there and the siblings after it, `count` of them with the first.
    Over(usize),
}

/// A change by its number, and where it aims: first in a node, after an element, or over some siblings. Paths are borrowed.
#[derive(Clone, Copy)]
pub struct Aimed<'a> {
    /// The number of the change.
    pub change: usize,
    /// The child slots on the way to the element from which it aims.
    pub path: &'a [usize],
    /// Where it aims from there.
    pub form: AimForm,
}

// What stands at a depth of the way to the element at a path.
fn on_the_way(path: &[usize], depth: usize) -> Option<u128>
    ensures key { result ≡ slice_get (on_the_way path.now) depth }
    ensures small { IfSome result (λ k. k < 2 ^ 66) }
    ensures within { IfSome result (λ k. depth < 2 ^ 62) }
{
    let slot = path.get(depth)?;
    Some(2 * (*slot as u128) + 1)
}

impl<'a> Aimed<'a> {
    // Whether it alters the children of a node. A replaced top, the gap after the top and no siblings at all alter none.
    pub fn has_parent(&self) -> bool
        ensures { result ≡ has_parent (numbered self.now) }
    {
        match self.form {
            AimForm::FirstIn => true,
            AimForm::AfterElement => !self.path.is_empty(),
            AimForm::Over(count) => !self.path.is_empty() && count > 0,
        }
    }

    /// Whether it replaces the element at a path.
    pub fn replaces(&self, path: &[usize]) -> bool
        ensures { result ≡ replaces path.now (aim_in self.now.path.now self.now.form) }
    {
        let AimForm::Over(count) = self.form else {
            return false;
        };
        let Some((first, siblings)) = self.path.split_last() else {
            return path.is_empty() && count > 0;
        };
        let Some((slot, parent)) = path.split_last() else {
            return false;
        };
        if parent != siblings {
            return false;
        }
        if *slot < *first {
            return false;
        }
        *slot - *first < count
    }

    /// Whether it replaces an element on the way to a path; none if there is no path.
    pub(crate) fn surrounds(&self, path: Option<&[usize]>) -> bool
        ensures { result ≡ surrounds (option_map_or (λ p. up_to p.now) path.entry [])
            (aim_in self.now.path.now self.now.form) }
    {
        let Some(path) = path else {
            return false;
        };
        let Some(way) = path.get(..self.path.len()) else {
            return false;
        };
        self.replaces(way)
    }

    /// Whether it replaces some element.
    pub fn is_over(&self) -> bool
        ensures { result ≡ some_path (replaced (aim_in self.now.path.now self.now.form)) }
    {
        match self.form {
            AimForm::FirstIn => false,
            AimForm::AfterElement => false,
            AimForm::Over(count) => count > 0,
        }
    }

    /// Whether another one replaces an element that it replaces too.
    pub fn shares(&self, other: &Aimed<'_>) -> bool
        ensures { result ≡ shares (aim_in self.now.path.now self.now.form) (aim_in other.now.path.now other.now.form) }
    {
        if self.replaces(other.path) {
            return other.is_over();
        }
        self.is_over() && other.replaces(self.path)
    }

    // What stands at a depth of the site where it aims.
    fn key(&self, depth: usize) -> Option<u128>
        ensures key { result ≡ slice_get (site (aim_in self.now.path.now self.now.form)) depth }
        ensures within { IfSome result (λ k. depth < 2 ^ 62) }
    {
        let way = on_the_way(self.path, depth);
        match self.form {
            AimForm::FirstIn => {
                if depth == self.path.len() {
                    return Some(0);
                }
                way
            }
            AimForm::AfterElement => {
                if self.path.is_empty() {
                    return if depth == 0 { Some(0) } else { None };
                }
                let key = way?;
                if self.path.len() - depth == 1 {
                    return Some(key + 1);
                }
                Some(key)
            }
            AimForm::Over(count) => {
                if count == 0 {
                    return None;
                }
                way
            }
        }
    }

    /// Document order but for the numbers: aims at one site are equal.
    pub fn compare_sites(&self, other: &Aimed<'_>) -> Ordering
        ensures { result ≡ slice_cmp nat_cmp (site (aim_in self.now.path.now self.now.form))
            (site (aim_in other.now.path.now other.now.form)) }
    {
        let mut depth = 0;
        loop {
            let Some(one) = self.key(depth) else {
                return match other.key(depth) {
                    Some(_) => Ordering::Less,
                    None => Ordering::Equal,
                };
            };
            let Some(two) = other.key(depth) else {
                return Ordering::Greater;
            };
            match one.cmp(&two) {
                Ordering::Less => return Ordering::Less,
                Ordering::Equal => depth += 1,
                Ordering::Greater => return Ordering::Greater,
            }
        }
    }

    /// Document order: a gap before its slot, what is inside an element after what replaces it, and at one site by the numbers.
    pub fn compare(&self, other: &Aimed<'_>) -> Ordering
        ensures { is_lt result ≡ stands_before (numbered self.now) (numbered other.now) }
    {
        self.compare_sites(other)
            .then(self.change.cmp(&other.change))
    }
}

/// Takes off, from the last on, what surrounds no element on the way to a path; all, if there is no path.
pub(crate) fn close(regions: &mut Vec<Aimed<'_>>, path: Option<&[usize]>)
    ensures { Closes (option_map_or (λ p. up_to p.now) path.entry []) (aims_of regions.old.items)
        (aims_of regions.new.items) }
{
    loop {
        let Some(last) = regions.last() else {
            return;
        };
        if last.surrounds(path) {
            return;
        }
        regions.pop();
    }
}
