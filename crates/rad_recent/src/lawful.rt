//! The laws of the tables of kept replies and of challenges.
ghost use Rattle.rad_recent.specs.Lawful.{AnswerLeavesLawfulChallenges, ExpiryLeavesLawfulChallenges, ExpiryLeavesLawfulReplies};
ghost use Rattle.rad_recent.specs.Lawful.{IssueLeavesLawfulChallenges, KeepingLeavesLawfulReplies, OpeningChallengesAreLawful};
ghost use Rattle.rad_recent.specs.Lawful.{OpeningRepliesAreLawful, RemovalLeavesLawfulReplies, RestoreRebuildsChallenges};
ghost use Rattle.rad_recent.specs.Lawful.{RestoreRebuildsReplies, RestoredChallengeIsTheLaw, RestoredLastChallengeIsTheLaw};
ghost use Rattle.rad_recent.specs.Lawful.{RestoredReplyIsTheLaw};

/// A table without kept replies is lawful, and expiry, removing the reply to a key, and keeping one in its place where there is
/// room leave a lawful table so while moments don't fall. A reply is put back exactly where that leaves a lawful table so, and no
/// lawful table is refused.
///
/// The call costs nothing: it does nothing at run time. Those who keep a table call it to rest on the law.
pub fn lawful_replies()
    ensures opening { OpeningRepliesAreLawful }
    ensures expiry { ExpiryLeavesLawfulReplies }
    ensures removal { RemovalLeavesLawfulReplies }
    ensures keeping { KeepingLeavesLawfulReplies }
    ensures restore { RestoredReplyIsTheLaw }
    ensures rebuilt { RestoreRebuildsReplies }
{}

/// A table without challenges is lawful, and expiry, removing the challenge that is answered, and adding one where there is room
/// leave a lawful table so while moments don't fall. A challenge, or a last number, is put back exactly where that leaves a
/// lawful table so and no number is given twice, and no lawful table is refused.
///
/// The call costs nothing: it does nothing at run time. Those who keep a table call it to rest on the law.
pub fn lawful_challenges()
    ensures opening { OpeningChallengesAreLawful }
    ensures expiry { ExpiryLeavesLawfulChallenges }
    ensures answer { AnswerLeavesLawfulChallenges }
    ensures issue { IssueLeavesLawfulChallenges }
    ensures restore { RestoredChallengeIsTheLaw }
    ensures restore_last { RestoredLastChallengeIsTheLaw }
    ensures rebuilt { RestoreRebuildsChallenges }
{}
