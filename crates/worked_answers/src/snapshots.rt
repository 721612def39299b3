ghost use Rattle.worked_answers.specs.Snapshots.{WorkedSnapForms, WorkedSaves, WorkedResumes};

/// A law: the definitions give what was worked out by hand for `save` and `resume`. It does nothing.
pub fn worked_snapshots()
    ensures forms { WorkedSnapForms }
    ensures saves { WorkedSaves }
    ensures resumes { WorkedResumes }
{}
