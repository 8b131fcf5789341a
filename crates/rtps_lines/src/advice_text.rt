//! What to do for a pair, in a sentence.

ghost use Rattle.std.specs.Prelude.{◌≡◌};
ghost use Rattle.rtps_lines.specs.AdviceText as advice_text_spec;

use crate::sentences::advice as said;
use rtps_report::Advice;

/// In one sentence; of a participant that ended, without the time of its last datagram.
#[tactic(auto, unfolding(crate::specs::AdviceText::sentence_of))]
pub fn sentence_of(advice: Advice) -> &'static str
    ensures { result.now ≡ advice_text_spec.sentence_of advice }
{
    match advice {
        Advice::TwoLives => said::TWO_LIVES,
        Advice::ReaderEnded(_) => said::READER_ENDED,
        Advice::WriterEnded(_) => said::WRITER_ENDED,
        Advice::NotAnnounced => said::NOT_ANNOUNCED,
        Advice::Lost => said::LOST,
        Advice::MatchedLate => said::MATCHED_LATE,
        Advice::MissedUnsent => said::MISSED_UNSENT,
        Advice::MissedAgain => said::MISSED_AGAIN,
        Advice::MissedOnce => said::MISSED_ONCE,
        Advice::Unsent => said::UNSENT,
        Advice::Unanswered => said::UNANSWERED,
        Advice::Tail => said::TAIL,
        Advice::OpenUnread => said::UNREAD,
        Advice::OpenUntold => said::OPEN_UNTOLD,
        Advice::Left => said::LEFT,
        Advice::NotAsked => said::NOT_ASKED,
        Advice::JustAsked => said::JUST_ASKED,
        Advice::NeverAnswered => said::NEVER_ANSWERED,
        Advice::Silent => said::SILENT,
        Advice::Alike => said::ALIKE,
        Advice::Unlike => said::UNLIKE,
        Advice::Relayed => said::RELAYED,
        Advice::UnfoundedUnread => said::UNREAD,
        Advice::Late => said::LATE,
        Advice::Unannounced => said::UNANNOUNCED,
        Advice::BeganLate => said::BEGAN_LATE,
        Advice::Lacking => said::LACKING,
    }
}
