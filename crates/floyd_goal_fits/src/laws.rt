ghost use Rattle.floyd_goal_fits.specs.Laws as laws;

/// A well-formed goal meets what each command, and the law that each Pure command is sound, asks of it. Of what `Exists` is
/// given, its sort is asked for besides.
pub fn goals_meet_commands()
    ensures specialize { laws.MeetSpecialize }
    ensures intro { laws.MeetIntro }
    ensures destruct { laws.MeetDestruct }
    ensures intros { laws.MeetIntros }
    ensures exists { laws.MeetExists }
    ensures soundness { laws.MeetSoundness }
{}
