//! Which records reach the root by their parents. Each way up is walked once, and all records on it are marked with what
//! was found at its end.
ghost use Rattle.std.specs.Prelude.{◌≡◌, ◌≢◌, ◌<◌, ℕ, All, IfOk, OnOk, length};
ghost use Rattle.volume_clauses.specs.declared.marks.Mark.TheVariants.{Unknown};
ghost use Rattle.volume_clauses.specs.Marks.{AreRight, HasRoot, IsKnown, KeepsKnown, Settled, Walked, mark_at};

use crate::marks::Mark;
use std::alloc::{AllocError, Global};

// Walks from `f` up to the first record that is marked, and marks the way.
fn walk_up(
    parents: &[usize],
    marks: &mut [Mark],
    path: &mut Vec<usize>,
    f: usize,
) -> Result<usize, AllocError>
    requires parents { All (λ p. p < length parents.now) parents.now }
    requires all { length marks.old ≡ length parents.now }
    requires start { f < length parents.now }
    ensures walked { (root : ℕ) → IfOk result (λ at. HasRoot root marks.old → AreRight parents.now root marks.old
        → Walked parents.now root marks.old marks.new path.new.items f at) }
    ensures at { IfOk result (λ at. at < length parents.now) }
    ensures path { OnOk result (All (λ x. x < length parents.now) path.new.items) }
{
    path.clear();
    let mut at = f;
    while marks[at].is_unknown() {
        marks[at] = Mark::Walking;
        path.push(at)?;
        at = parents[at];
    }
    Ok(at)
}

// Marks the records of a way.
fn settle(marks: &mut [Mark], path: &[usize], verdict: Mark)
    requires { All (λ x. x < length marks.old) path.now }
    ensures { Settled marks.old marks.new path.now verdict }
{
    for x in path {
        marks[*x] = verdict;
    }
}

// Finds out what is to be known of `f`.
fn climb(
    parents: &[usize],
    marks: &mut [Mark],
    path: &mut Vec<usize>,
    f: usize,
) -> Result<(), AllocError>
    requires parents { All (λ p. p < length parents.now) parents.now }
    requires all { length marks.old ≡ length parents.now }
    requires start { f < length parents.now }
    ensures known { (root : ℕ) → OnOk result (HasRoot root marks.old → AreRight parents.now root marks.old
        → KeepsKnown parents.now root marks.old marks.new f) }
{
    let at = walk_up(parents, marks, path, f)?;
    let verdict = marks[at].verdict();
    settle(marks, path, verdict);
    Ok(())
}

// Marks at the start: the root alone is known, where there is one.
fn first_marks(alloc: Global, count: usize, root: usize) -> Result<Vec<Mark>, AllocError>
    ensures all { IfOk result (λ marks. length marks.items ≡ count) }
    ensures root { IfOk result (λ marks. HasRoot root marks.items) }
    ensures others { IfOk result (λ marks. (k : ℕ) → k ≢ root → mark_at marks.items k ≡ Unknown) }
{
    let mut marks = vec![in alloc; Mark::Unknown; count]?;
    if root < count {
        marks[root] = Mark::Found;
    }
    Ok(marks)
}

/// A mark for each record: `Found` exactly where its parents reach the root. Its own parent is given for each record, itself
/// where it has none.
///
/// # Errors
///
/// Where memory is out.
pub fn reaching(alloc: Global, parents: &[usize], root: usize) -> Result<Vec<Mark>, AllocError>
    requires { All (λ p. p < length parents.now) parents.now }
    ensures all { IfOk result (λ marks. length marks.items ≡ length parents.now) }
    ensures right { IfOk result (λ marks. (f : ℕ) → f < length parents.now → IsKnown parents.now root (mark_at marks.items f) f) }
{
    let mut marks = first_marks(alloc, parents.len(), root)?;
    let mut path = Vec::new(alloc);
    for f in 0..parents.len() {
        climb(parents, &mut marks, &mut path, f)?;
    }
    Ok(marks)
}
