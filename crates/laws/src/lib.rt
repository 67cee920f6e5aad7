// Laws of supervision, shown of its definitions: what every accepted operation does, in the words
// of the subject.
#![tactic(auto)]

ghost use Rattle.laws.specs.Addressing.{ExpiriesAccepted, MessagesAccepted, OrdersAccepted};
ghost use Rattle.laws.specs.Blocks.{AllBlocksMove};
ghost use Rattle.laws.specs.Calls.{CallsLive, CallsDecided, CausesKept, UnequippedStay};
ghost use Rattle.laws.specs.Causes.{CausesRead};
ghost use Rattle.laws.specs.Naming.{StatusesTell, GroupsName};
ghost use Rattle.laws.specs.Octets.{SendsCut, WordsFollow};
ghost use Rattle.laws.specs.Sending.{OrdersSend, MessagesAnswered, ExpiriesRepeat};

/// How a call begins, goes on and ends, and what is told of it; and the cause that is kept of a
/// release.
pub fn calls_live()
    ensures life { CallsLive }
    ensures decided { CallsDecided }
    ensures cause { CausesKept }
    ensures unequipped { UnequippedStay }
{}

/// How the blocks of either side and a waiting reset move, by single messages and by group messages
/// alike.
pub fn blocks_move()
    ensures { AllBlocksMove }
{}

/// What our orders send.
pub fn orders_send()
    ensures { OrdersSend }
{}

/// Whoever reads our REL gets the location and the value that the release was ordered with.
pub fn causes_read()
    ensures { CausesRead }
{}

/// An order is accepted exactly where its arguments, its circuits and their states allow it.
pub fn orders_accepted()
    ensures { OrdersAccepted }
{}

/// An expiry is accepted exactly where its timer is listed, and it names a circuit or a PCM system
/// and a type.
pub fn expiries_accepted()
    ensures { ExpiriesAccepted }
{}

/// A message is accepted exactly where the circuits that it names are circuits of the table.
pub fn messages_accepted()
    ensures { MessagesAccepted }
{}

/// What is answered to each message of the far exchange.
pub fn messages_answered()
    ensures { MessagesAnswered }
{}

/// What each timer repeats, while it is waited for, and when it alerts.
pub fn expiries_repeat()
    ensures { ExpiriesRepeat }
{}

/// Bit n of a status that is made of a test is set where the test holds.
pub fn statuses_tell()
    ensures { StatusesTell }
{}

/// Our group messages name the circuits that a test holds of, one message for each PCM system that
/// has one.
pub fn groups_name()
    ensures { GroupsName }
{}

/// The words that are told cut the octets that are written into the messages that are meant.
pub fn sends_cut()
    ensures { SendsCut }
{}

/// Begun and ended words come first, by rising CIC, then the sends, then the alert.
pub fn words_follow()
    ensures { WordsFollow }
{}
