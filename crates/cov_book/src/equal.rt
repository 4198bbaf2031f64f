//! Whether two scripts have the same functions, each with the same sums.
ghost use Rattle.std.specs.Prelude.{◌≡◌, ◌&&◌, ◌==◌};
ghost use Rattle.std.specs.Cmp.{partial_equiv_from_equiv, and_equiv, on_equiv, nat_eq_equiv, bool_eq_equiv};
ghost use Rattle.std.specs.Cmp.Lexicographic.{lists_equiv, nat_list_eq_equiv};
ghost use Rattle.cov_book.specs.Told.{same_root, same_runs, same_sums};
ghost use Rattle.cov_book.specs.Same.{same_place, same_function, same_script};

use crate::scripts::{Function, Script};
use crate::sums::Sums;
use cov_steps::Runs;

impl PartialEq for Sums {
    ghost eq = { same_sums };

    ghost laws = { partial_equiv_from_equiv (and_equiv (and_equiv (on_equiv
        (λ s. s.block) bool_eq_equiv) (on_equiv (λ s. s.root) nat_eq_equiv)) (on_equiv
        (λ s. s.runs) (and_equiv (on_equiv (λ r. r.start) nat_eq_equiv) (and_equiv (on_equiv
        (λ r. r.end) nat_eq_equiv) (on_equiv (λ r. r.runs) (lists_equiv (and_equiv (on_equiv
        (λ r. r.start) nat_eq_equiv) (and_equiv (on_equiv (λ r. r.end) nat_eq_equiv) (on_equiv
        (λ r. r.count) nat_eq_equiv))))))))) };

    fn eq(&self, other: &Sums) -> bool {
        is_root_same(self, other) && are_runs_same(&self.runs, &other.runs)
    }
}

// Whether two functions have the same flag and the same sum of root counts.
fn is_root_same(a: &Sums, b: &Sums) -> bool
    ensures { result ≡ same_root a.now b.now }
{
    a.block == b.block && a.root == b.root
}

// Whether two have the same runs.
fn are_runs_same(a: &Runs, b: &Runs) -> bool
    ensures { result ≡ same_runs a.now b.now }
{
    a.agrees(b)
}

impl PartialEq for Function {
    ghost eq = { same_function };

    ghost laws = { partial_equiv_from_equiv (and_equiv (and_equiv (on_equiv (λ f. f.start) nat_eq_equiv) (and_equiv (on_equiv (λ f. f.end) nat_eq_equiv) (on_equiv (λ f. f.name) nat_list_eq_equiv))) (on_equiv (λ f. f.sums) (and_equiv (and_equiv (on_equiv
        (λ s. s.block) bool_eq_equiv) (on_equiv (λ s. s.root) nat_eq_equiv)) (on_equiv
        (λ s. s.runs) (and_equiv (on_equiv (λ r. r.start) nat_eq_equiv) (and_equiv (on_equiv
        (λ r. r.end) nat_eq_equiv) (on_equiv (λ r. r.runs) (lists_equiv (and_equiv (on_equiv
        (λ r. r.start) nat_eq_equiv) (and_equiv (on_equiv (λ r. r.end) nat_eq_equiv) (on_equiv
        (λ r. r.count) nat_eq_equiv))))))))))) };

    fn eq(&self, other: &Function) -> bool {
        is_place_same(self, other) && self.sums == other.sums
    }
}

// Whether two functions have the same root and name.
fn is_place_same(a: &Function, b: &Function) -> bool
    ensures { result ≡ same_place a.now b.now }
{
    a.start == b.start && a.end == b.end && a.name == b.name
}

impl PartialEq for Script {
    ghost eq = { same_script };

    ghost laws = { partial_equiv_from_equiv (and_equiv (on_equiv (λ s. s.url) nat_list_eq_equiv) (on_equiv (λ s. s.functions) (lists_equiv (and_equiv (and_equiv (on_equiv (λ f. f.start) nat_eq_equiv) (and_equiv (on_equiv (λ f. f.end) nat_eq_equiv) (on_equiv (λ f. f.name) nat_list_eq_equiv))) (on_equiv (λ f. f.sums) (and_equiv (and_equiv (on_equiv
        (λ s. s.block) bool_eq_equiv) (on_equiv (λ s. s.root) nat_eq_equiv)) (on_equiv
        (λ s. s.runs) (and_equiv (on_equiv (λ r. r.start) nat_eq_equiv) (and_equiv (on_equiv
        (λ r. r.end) nat_eq_equiv) (on_equiv (λ r. r.runs) (lists_equiv (and_equiv (on_equiv
        (λ r. r.start) nat_eq_equiv) (and_equiv (on_equiv (λ r. r.end) nat_eq_equiv) (on_equiv
        (λ r. r.count) nat_eq_equiv)))))))))))))) };

    fn eq(&self, other: &Script) -> bool {
        self.url == other.url && self.functions == other.functions
    }
}
