//! Laws with nothing to run.
ghost use Rattle.std.specs.Prelude.{◌≡◌, ℕ, List};
ghost use Rattle.shell.specs.Check.{CheckReports};
ghost use Rattle.shell.specs.Label.{LabelReports};
ghost use Rattle.shell.specs.Report.{Report};

/// An image has one answer to the word `label`.
pub fn one_label()
    ensures { (all : List ℕ) (a b : Report) → LabelReports all a → LabelReports all b → a ≡ b }
{}

/// An image has one answer to the word `check`.
pub fn one_check()
    ensures { (all : List ℕ) (a b : Report) → CheckReports all a → CheckReports all b → a ≡ b }
{}
