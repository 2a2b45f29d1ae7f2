//! The slots of a line, by its first word.

ghost use Rattle.std.specs.Prelude.{◌≡◌};
ghost use Rattle.thr_text.specs.Slots.{call_slots, slots_of};

use crate::head::{Choice, Head, Slot};
use crate::object::Object;
use thr_values::call::CallWord;

#[tactic(auto, unfolding(crate::specs::Slots::call_slots))]
fn call_slots(call: CallWord) -> &'static [Slot]
    ensures { result.now ≡ call_slots call }
{
    match call {
        CallWord::AttrCreate => &[Slot::Object(Object::Attr)],
        CallWord::AttrDelete => &[Slot::Object(Object::Attr)],
        CallWord::AttrSetsched => &[Slot::Object(Object::Attr), Slot::Fixed(Choice::Policy)],
        CallWord::AttrSetprio => &[Slot::Object(Object::Attr), Slot::Expression],
        CallWord::AttrSetinheritsched => &[
            Slot::Object(Object::Attr),
            Slot::Fixed(Choice::Inherit),
        ],
        CallWord::AttrSetstacksize => &[Slot::Object(Object::Attr), Slot::Expression],
        CallWord::Create => &[
            Slot::Variable,
            Slot::ObjectOr(Object::Attr),
            Slot::Object(Object::Routine),
            Slot::Expression,
        ],
        CallWord::Join => &[Slot::Expression, Slot::Variable],
        CallWord::Detach => &[Slot::Expression],
        CallWord::Yield => &[],
        CallWord::Cancel => &[Slot::Expression],
        CallWord::Testcancel => &[],
        CallWord::Setcancel => &[Slot::Fixed(Choice::Cancel), Slot::Variable],
        CallWord::Setasynccancel => &[Slot::Fixed(Choice::Cancel), Slot::Variable],
        CallWord::Setprio => &[Slot::Expression, Slot::Expression, Slot::Variable],
        CallWord::Getprio => &[Slot::Expression, Slot::Variable],
        CallWord::Setscheduler => &[
            Slot::Expression,
            Slot::Fixed(Choice::Policy),
            Slot::Expression,
            Slot::Variable,
        ],
        CallWord::Getscheduler => &[Slot::Expression, Slot::Variable],
        CallWord::DelayNp => &[Slot::Expression],
        CallWord::GetExpirationNp => &[Slot::Expression, Slot::Variable],
        CallWord::MutexattrCreate => &[Slot::Object(Object::Mutexattr)],
        CallWord::MutexattrSetkindNp => &[
            Slot::Object(Object::Mutexattr),
            Slot::Fixed(Choice::MutexKind),
        ],
        CallWord::MutexattrDelete => &[Slot::Object(Object::Mutexattr)],
        CallWord::MutexInit => &[
            Slot::Object(Object::Mutex),
            Slot::ObjectOr(Object::Mutexattr),
        ],
        CallWord::MutexDestroy => &[Slot::Object(Object::Mutex)],
        CallWord::MutexLock => &[Slot::Object(Object::Mutex)],
        CallWord::MutexTrylock => &[Slot::Object(Object::Mutex), Slot::Variable],
        CallWord::MutexUnlock => &[Slot::Object(Object::Mutex)],
        CallWord::LockGlobalNp => &[],
        CallWord::UnlockGlobalNp => &[],
        CallWord::CondInit => &[Slot::Object(Object::Cond)],
        CallWord::CondDestroy => &[Slot::Object(Object::Cond)],
        CallWord::CondWait => &[Slot::Object(Object::Cond), Slot::Object(Object::Mutex)],
        CallWord::CondTimedwait => &[
            Slot::Object(Object::Cond),
            Slot::Object(Object::Mutex),
            Slot::Expression,
        ],
        CallWord::CondSignal => &[Slot::Object(Object::Cond)],
        CallWord::CondBroadcast => &[Slot::Object(Object::Cond)],
        CallWord::Once => &[Slot::Object(Object::Once), Slot::Object(Object::Routine)],
        CallWord::Keycreate => &[Slot::Object(Object::Key), Slot::ObjectOr(Object::Routine)],
        CallWord::Setspecific => &[Slot::Object(Object::Key), Slot::Expression],
        CallWord::Getspecific => &[Slot::Object(Object::Key), Slot::Variable],
        CallWord::Read => &[Slot::Object(Object::Pipe), Slot::Variable, Slot::Variable],
        CallWord::Write => &[Slot::Object(Object::Pipe), Slot::Expression],
        CallWord::Close => &[Slot::Object(Object::Pipe)],
    }
}

impl Head {
    ghost use Rattle.thr_text.specs.Slots.{slots_of};

    /// The slots after this word, from the left (docs/script.md, "Lines").
    #[tactic(auto, unfolding(crate::specs::Slots::slots_of))]
    pub fn slots(self) -> &'static [Slot]
        ensures { result.now ≡ slots_of self }
    {
        match self {
            Head::Interface => &[Slot::Fixed(Choice::Interface)],
            Head::Limit => &[Slot::Number],
            Head::Shared => &[Slot::Declared(Object::Shared), Slot::Number],
            Head::Exception => &[Slot::Declared(Object::Exception)],
            Head::Status => &[Slot::Declared(Object::Exception), Slot::Number],
            Head::Mutex => &[Slot::Declared(Object::Mutex)],
            Head::Mutexattr => &[Slot::Declared(Object::Mutexattr)],
            Head::Cond => &[Slot::Declared(Object::Cond)],
            Head::Attr => &[Slot::Declared(Object::Attr)],
            Head::Key => &[Slot::Declared(Object::Key)],
            Head::Once => &[Slot::Declared(Object::Once)],
            Head::Pipe => &[Slot::Declared(Object::Pipe), Slot::Number],
            Head::Routine => &[Slot::Declared(Object::Routine), Slot::Parameter],
            Head::Local => &[Slot::Local],
            Head::Set => &[Slot::Variable, Slot::Expression],
            Head::Say => &[Slot::Expression],
            Head::If => &[Slot::Expression],
            Head::Else => &[],
            Head::While => &[Slot::Expression],
            Head::Try => &[],
            Head::Catch => &[Slot::Object(Object::Exception)],
            Head::CatchAll => &[],
            Head::Finally => &[],
            Head::Endtry => &[],
            Head::Raise => &[Slot::Object(Object::Exception)],
            Head::Reraise => &[],
            Head::Call => &[
                Slot::Object(Object::Routine),
                Slot::Expression,
                Slot::Receiver,
            ],
            Head::Return => &[Slot::Expression],
            Head::Exit => &[Slot::Expression],
            Head::End => &[],
            Head::Dce(call) => call_slots(call),
        }
    }
}
