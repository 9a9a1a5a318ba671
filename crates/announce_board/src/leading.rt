// What a pen that leads may do by itself.
ghost use Rattle.announce_board.specs.Leading.{DraftKeepsLead, PostKeepsLead, LookKeepsLead};

/// A pen that leads may draft, post and look. The lead is still the pen's own: the pen may serve and release by
/// it. A call of this law runs nothing: it hands the law's facts to the proof of its caller.
pub fn law_leads_stay()
    ensures draft { DraftKeepsLead }
    ensures post { PostKeepsLead }
    ensures look { LookKeepsLead }
{}
