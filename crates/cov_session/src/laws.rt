//! Worked examples of the session machine, and what holds of all its events.
ghost use Rattle.cov_session.specs.Laws.{FatesOfFrames};
ghost use Rattle.cov_session.specs.Examples.{TwoSessions, Views, OneSession, StillRuns, Resumes, ClientRuns};

/// What the machine and a client do on worked examples.
pub fn worked_examples()
    ensures two_sessions { TwoSessions }
    ensures views { Views }
    ensures one_session { OneSession }
    ensures still_runs { StillRuns }
    ensures resumes { Resumes }
    ensures client_runs { ClientRuns }
{}

/// Each played frame has one fate, and each answered take has exactly the frames whose fate it is.
pub fn fates_of_frames()
    ensures { FatesOfFrames }
{}
