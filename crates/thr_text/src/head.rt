//! The first words of lines, and the slots after them.

ghost use Rattle.std.specs.Prelude.{◌≡◌, map};
ghost use Rattle.thr_values.specs.Words.{call_word};

use crate::block::Shape;
use crate::object::Object;
use thr_values::call::CallWord;

/// The first word of a line, which says what the line is (docs/script.md, "Lines").
#[derive(Clone, Copy, Debug, PartialEq, Eq)]
pub enum Head {
    Interface,
    Limit,
    Shared,
    Exception,
    Status,
    Mutex,
    Mutexattr,
    Cond,
    Attr,
    Key,
    Once,
    Pipe,
    Routine,
    Local,
    Set,
    Say,
    If,
    Else,
    While,
    Try,
    Catch,
    CatchAll,
    Finally,
    Endtry,
    Raise,
    Reraise,
    Call,
    Return,
    Exit,
    End,
    /// A call of the thread service.
    Dce(CallWord),
}

/// The fixed words of which one stands at a place.
#[derive(Clone, Copy, Debug, PartialEq, Eq)]
pub enum Choice {
    /// `exc` or `status`.
    Interface,
    Policy,
    Inherit,
    Cancel,
    MutexKind,
}

/// What stands at a place of a line: the slots after its first word, from the left (docs/script.md, "Lines").
#[derive(Clone, Copy, Debug, PartialEq, Eq)]
pub enum Slot {
    Number,
    Fixed(Choice),
    /// A name that this line declares.
    Declared(Object),
    /// The name of a routine's parameter.
    Parameter,
    /// The name of a further local.
    Local,
    /// The name of an object of this kind.
    Object(Object),
    /// The name of an object of this kind, or the fixed word that says that there is none: `default`, or `none` for a
    /// routine.
    ObjectOr(Object),
    /// A parameter, local or shared variable.
    Variable,
    /// The parameter or local that takes what a routine returns, or nothing.
    Receiver,
    /// The name of an exception, or `this`.
    Exception,
    Expression,
}

/// All first words, by the length of their texts.
const HEADS: [&[Head]; 29] = [
    &[],
    &[],
    &[Head::If],
    &[Head::Set, Head::End, Head::Say, Head::Key, Head::Try],
    &[
        Head::Cond,
        Head::Attr,
        Head::Once,
        Head::Pipe,
        Head::Else,
        Head::Call,
        Head::Dce(CallWord::Read),
    ],
    &[
        Head::Limit,
        Head::Mutex,
        Head::Local,
        Head::While,
        Head::Catch,
        Head::Raise,
        Head::Dce(CallWord::Write),
        Head::Dce(CallWord::Close),
    ],
    &[Head::Shared, Head::Status, Head::Endtry, Head::Return],
    &[Head::Routine, Head::Finally, Head::Reraise],
    &[],
    &[
        Head::Interface,
        Head::Exception,
        Head::Mutexattr,
        Head::CatchAll,
    ],
    &[],
    &[],
    &[
        Head::Exit,
        Head::Dce(CallWord::Join),
        Head::Dce(CallWord::Once),
    ],
    &[Head::Dce(CallWord::Yield)],
    &[
        Head::Dce(CallWord::Create),
        Head::Dce(CallWord::Detach),
        Head::Dce(CallWord::Cancel),
    ],
    &[Head::Dce(CallWord::Setprio), Head::Dce(CallWord::Getprio)],
    &[Head::Dce(CallWord::DelayNp)],
    &[
        Head::Dce(CallWord::Setcancel),
        Head::Dce(CallWord::CondInit),
        Head::Dce(CallWord::CondWait),
        Head::Dce(CallWord::Keycreate),
    ],
    &[
        Head::Dce(CallWord::Testcancel),
        Head::Dce(CallWord::MutexInit),
        Head::Dce(CallWord::MutexLock),
    ],
    &[
        Head::Dce(CallWord::AttrCreate),
        Head::Dce(CallWord::AttrDelete),
        Head::Dce(CallWord::CondSignal),
        Head::Dce(CallWord::Setspecific),
        Head::Dce(CallWord::Getspecific),
    ],
    &[
        Head::Dce(CallWord::AttrSetprio),
        Head::Dce(CallWord::Setscheduler),
        Head::Dce(CallWord::Getscheduler),
        Head::Dce(CallWord::MutexUnlock),
        Head::Dce(CallWord::CondDestroy),
    ],
    &[
        Head::Dce(CallWord::AttrSetsched),
        Head::Dce(CallWord::MutexDestroy),
        Head::Dce(CallWord::MutexTrylock),
    ],
    &[
        Head::Dce(CallWord::Setasynccancel),
        Head::Dce(CallWord::LockGlobalNp),
        Head::Dce(CallWord::CondTimedwait),
        Head::Dce(CallWord::CondBroadcast),
    ],
    &[],
    &[
        Head::Dce(CallWord::MutexattrCreate),
        Head::Dce(CallWord::MutexattrDelete),
        Head::Dce(CallWord::UnlockGlobalNp),
    ],
    &[
        Head::Dce(CallWord::AttrSetstacksize),
        Head::Dce(CallWord::GetExpirationNp),
    ],
    &[],
    &[],
    &[
        Head::Dce(CallWord::AttrSetinheritsched),
        Head::Dce(CallWord::MutexattrSetkindNp),
    ],
];

#[tactic(auto, unfolding(thr_values::specs::Words::call_word))]
fn call_text(call: CallWord) -> &'static [u8]
    ensures { result.now ≡ call_word call }
{
    match call {
        CallWord::AttrCreate => b"pthread_attr_create",
        CallWord::AttrDelete => b"pthread_attr_delete",
        CallWord::AttrSetsched => b"pthread_attr_setsched",
        CallWord::AttrSetprio => b"pthread_attr_setprio",
        CallWord::AttrSetinheritsched => b"pthread_attr_setinheritsched",
        CallWord::AttrSetstacksize => b"pthread_attr_setstacksize",
        CallWord::Create => b"pthread_create",
        CallWord::Join => b"pthread_join",
        CallWord::Detach => b"pthread_detach",
        CallWord::Yield => b"pthread_yield",
        CallWord::Cancel => b"pthread_cancel",
        CallWord::Testcancel => b"pthread_testcancel",
        CallWord::Setcancel => b"pthread_setcancel",
        CallWord::Setasynccancel => b"pthread_setasynccancel",
        CallWord::Setprio => b"pthread_setprio",
        CallWord::Getprio => b"pthread_getprio",
        CallWord::Setscheduler => b"pthread_setscheduler",
        CallWord::Getscheduler => b"pthread_getscheduler",
        CallWord::DelayNp => b"pthread_delay_np",
        CallWord::GetExpirationNp => b"pthread_get_expiration_np",
        CallWord::MutexattrCreate => b"pthread_mutexattr_create",
        CallWord::MutexattrSetkindNp => b"pthread_mutexattr_setkind_np",
        CallWord::MutexattrDelete => b"pthread_mutexattr_delete",
        CallWord::MutexInit => b"pthread_mutex_init",
        CallWord::MutexDestroy => b"pthread_mutex_destroy",
        CallWord::MutexLock => b"pthread_mutex_lock",
        CallWord::MutexTrylock => b"pthread_mutex_trylock",
        CallWord::MutexUnlock => b"pthread_mutex_unlock",
        CallWord::LockGlobalNp => b"pthread_lock_global_np",
        CallWord::UnlockGlobalNp => b"pthread_unlock_global_np",
        CallWord::CondInit => b"pthread_cond_init",
        CallWord::CondDestroy => b"pthread_cond_destroy",
        CallWord::CondWait => b"pthread_cond_wait",
        CallWord::CondTimedwait => b"pthread_cond_timedwait",
        CallWord::CondSignal => b"pthread_cond_signal",
        CallWord::CondBroadcast => b"pthread_cond_broadcast",
        CallWord::Once => b"pthread_once",
        CallWord::Keycreate => b"pthread_keycreate",
        CallWord::Setspecific => b"pthread_setspecific",
        CallWord::Getspecific => b"pthread_getspecific",
        CallWord::Read => b"read",
        CallWord::Write => b"write",
        CallWord::Close => b"close",
    }
}

impl Head {
    ghost use Rattle.thr_text.specs.Blocks.{shape_of};
    ghost use Rattle.thr_text.specs.Heads.{head_word, head_in, head_of};
    ghost use Rattle.thr_text.specs.Groups.{head_in_group};

    /// The word.
    #[tactic(auto, unfolding(crate::specs::Heads::head_word))]
    pub fn text(self) -> &'static [u8]
        ensures { result.now ≡ head_word self }
    {
        match self {
            Head::Interface => b"interface",
            Head::Limit => b"limit",
            Head::Shared => b"shared",
            Head::Exception => b"exception",
            Head::Status => b"status",
            Head::Mutex => b"mutex",
            Head::Mutexattr => b"mutexattr",
            Head::Cond => b"cond",
            Head::Attr => b"attr",
            Head::Key => b"key",
            Head::Once => b"once",
            Head::Pipe => b"pipe",
            Head::Routine => b"routine",
            Head::Local => b"local",
            Head::Set => b"set",
            Head::Say => b"say",
            Head::If => b"if",
            Head::Else => b"else",
            Head::While => b"while",
            Head::Try => b"try",
            Head::Catch => b"catch",
            Head::CatchAll => b"catch_all",
            Head::Finally => b"finally",
            Head::Endtry => b"endtry",
            Head::Raise => b"raise",
            Head::Reraise => b"reraise",
            Head::Call => b"call",
            Head::Return => b"return",
            Head::Exit => b"pthread_exit",
            Head::End => b"end",
            Head::Dce(call) => call_text(call),
        }
    }

    /// What a line with this first word is to the blocks.
    #[tactic(auto, unfolding(crate::specs::Blocks::shape_of))]
    pub fn shape(self) -> Shape
        ensures { result ≡ shape_of self }
    {
        match self {
            Head::Interface => Shape::Declares,
            Head::Limit => Shape::Declares,
            Head::Shared => Shape::Declares,
            Head::Exception => Shape::Declares,
            Head::Status => Shape::Declares,
            Head::Mutex => Shape::Declares,
            Head::Mutexattr => Shape::Declares,
            Head::Cond => Shape::Declares,
            Head::Attr => Shape::Declares,
            Head::Key => Shape::Declares,
            Head::Once => Shape::Declares,
            Head::Pipe => Shape::Declares,
            Head::Routine => Shape::OpensRoutine,
            Head::Local => Shape::DeclaresLocal,
            Head::Set => Shape::IsPlain,
            Head::Say => Shape::IsPlain,
            Head::If => Shape::OpensIf,
            Head::Else => Shape::BeginsElse,
            Head::While => Shape::OpensWhile,
            Head::Try => Shape::OpensTry,
            Head::Catch => Shape::BeginsCatch,
            Head::CatchAll => Shape::BeginsCatchAll,
            Head::Finally => Shape::BeginsFinally,
            Head::Endtry => Shape::ClosesTry,
            Head::Raise => Shape::IsPlain,
            Head::Reraise => Shape::Reraises,
            Head::Call => Shape::IsPlain,
            Head::Return => Shape::Returns,
            Head::Exit => Shape::IsPlain,
            Head::End => Shape::Closes,
            Head::Dce(_) => Shape::IsPlain,
        }
    }

    /// The first word of these that has this text.
    #[tactic(auto, using(crate::proofs::HeadLaws::head_step, crate::proofs::HeadLaws::head_end))]
    fn find(heads: &[Head], text: &[u8]) -> Option<Head>
        ensures { result ≡ head_in heads.now text.now }
    {
        for head in heads {
            if text == head.text() {
                return Some(*head);
            }
        }
        None
    }

    /// The first word that has this text, among those of its length.
    #[tactic(auto, using(crate::proofs::HeadLaws::in_no_group, crate::proofs::HeadLaws::in_group_at))]
    fn find_by_length(groups: &[&[Head]], text: &[u8]) -> Option<Head>
        ensures { result ≡ head_in_group (map (λ g. g.now) groups.now) text.now }
    {
        if text.len() < groups.len() {
            Head::find(groups[text.len()], text)
        } else {
            None
        }
    }

    /// The first word that has this text.
    pub fn of(text: &[u8]) -> Option<Head>
        ensures { result ≡ head_of text.now }
    {
        Head::find_by_length(&HEADS, text)
    }
}
