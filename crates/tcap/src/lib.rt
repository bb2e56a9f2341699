// The record of a TCAP message, and what reading answers. A string of a record is a place and a length in the octets beside it.
#![tactic(auto)]

ghost use Rattle.std.specs.Prelude.{◌≡◌, length};
ghost use Rattle.tcap.specs.Record.{blank_row, message_tag};
ghost use Rattle.tcap.specs.inner.Names.{name_kind};

use element::FaultKind;

// The numbers of the page, as tcap/specs/WellFormed has them: the most octets of a message and of a transaction ID, the most components, the deepest level.
pub const MOST_OCTETS: usize = 255;

pub const MOST_TRANSACTION_ID_OCTETS: usize = 4;

pub const MOST_COMPONENTS: usize = 16;

pub const DEEPEST_LEVEL: usize = 16;

// Levels left for an element at level 4, 5 and 7; the message is level 1.
pub const LEFT_AT_4: usize = DEEPEST_LEVEL - 3;

pub const LEFT_AT_5: usize = DEEPEST_LEVEL - 4;

pub const LEFT_AT_7: usize = DEEPEST_LEVEL - 6;

// The greatest problem of a Reject: general, of an invoke, of a return result, of a return error.
pub const MOST_GENERAL_PROBLEM: u8 = 2;

pub const MOST_INVOKE_PROBLEM: u8 = 7;

pub const MOST_RESULT_PROBLEM: u8 = 2;

pub const MOST_ERROR_PROBLEM: u8 = 4;

// The greatest P-Abort cause; of a dialogue response the greatest result and diagnostic; of a dialogue abort the greatest source.
pub const MOST_CAUSE: u8 = 4;

pub const MOST_RESULT: u8 = 1;

pub const MOST_USER_DIAGNOSTIC: u8 = 2;

pub const MOST_PROVIDER_DIAGNOSTIC: u8 = 2;

pub const MOST_ABORT_SOURCE: u8 = 1;

#[derive(Clone, Copy)]
pub struct Span {
    pub place: u32,
    pub len: u32,
}

// A transaction ID is kept as its octets.
#[derive(Clone, Copy)]
pub struct TransactionId {
    pub octets: Span,
}

// Tag 48 and tag 49: the two are never mixed up.
#[derive(Clone, Copy)]
pub struct OrigTransactionId(pub TransactionId);

#[derive(Clone, Copy)]
pub struct DestTransactionId(pub TransactionId);

// An operation or error code.
#[derive(Clone, Copy)]
pub enum Code {
    Local(i32),
    Global(Span),
}

// The problem of a Reject: tags 80, 81, 82, 83.
#[derive(Clone, Copy)]
pub enum Problem {
    General(u8),
    OfInvoke(u8),
    OfResult(u8),
    OfError(u8),
}

// A return result holds nothing, or 30 with code and parameter.
#[derive(Clone, Copy)]
pub enum ComponentKind {
    Invoke {
        linked: Option<i8>,
        code: Code,
        parameter: Option<Span>,
    },
    ResultLast(Option<(Code, Span)>),
    ResultNotLast(Option<(Code, Span)>),
    ReturnError {
        code: Code,
        parameter: Option<Span>,
    },
    Reject(Problem),
}

// One component: its invoke ID beside its kind, which carries its own fields. Null stands for an ID in a Reject alone.
#[derive(Clone, Copy)]
pub struct Row {
    pub id: Option<i8>,
    pub kind: ComponentKind,
}

// The row where there is no component.
pub fn blank_row() -> Row
    ensures { result ≡ blank_row }
{
    Row {
        id: None,
        kind: ComponentKind::Invoke {
            linked: None,
            code: Code::Local(0),
            parameter: None,
        },
    }
}

// Who diagnosed, of a dialogue response: the user (A1) or the provider (A2).
#[derive(Clone, Copy)]
pub enum Diagnostic {
    ByUser(u8),
    ByProvider(u8),
}

// The dialogue portion (6B), or the P-Abort cause (4A), which stands in its place.
#[derive(Clone, Copy)]
pub enum Dialogue {
    NoDialogue,
    Cause(u8),
    Request {
        name: Span,
        info: Option<Span>,
    },
    Response {
        name: Span,
        result: u8,
        diagnostic: Diagnostic,
        info: Option<Span>,
    },
    DialogueAbort {
        source: u8,
        info: Option<Span>,
    },
    Unidialogue {
        name: Span,
        info: Option<Span>,
    },
    OutsideElement {
        name: Span,
        element: Span,
    },
    OutsideOctets {
        name: Span,
        octets: Span,
    },
}

#[derive(Clone, Copy)]
pub enum MessageKind {
    Unidirectional,
    Begin,
    End,
    Continue,
    Abort,
}

// The tag of a message.
pub fn message_tag(kind: MessageKind) -> u8
    ensures { result ≡ message_tag kind }
{
    match kind {
        MessageKind::Unidirectional => 0x61,
        MessageKind::Begin => 0x62,
        MessageKind::End => 0x64,
        MessageKind::Continue => 0x65,
        MessageKind::Abort => 0x67,
    }
}

// Rows from `count` on do not matter; reading leaves them blank.
#[derive(Clone, Copy)]
pub struct Record {
    pub kind: MessageKind,
    pub orig: Option<OrigTransactionId>,
    pub dest: Option<DestTransactionId>,
    pub dialogue: Dialogue,
    pub count: usize,
    pub rows: [Row; 16],
}

// The standard answer to a message that is refused: the P-Abort cause to send, or the general problem of a Reject.
#[derive(Clone, Copy)]
pub enum Answer {
    AbortCause(u8),
    RejectProblem {
        problem: u8,
        component: usize,
        id: Option<i8>,
    },
}

// On what ground a message is refused: the standard answer goes by it, and by whom the fault belongs to.
#[derive(Clone, Copy)]
pub enum Ground {
    UnknownMessage,
    TooManyComponents,
    UnknownComponent,
    WrongPart,
    BadForm,
}

#[derive(Clone, Copy)]
pub struct Refusal {
    pub kind: FaultKind,
    pub place: usize,
    pub orig: Option<OrigTransactionId>,
    pub answer: Answer,
}

// Which of the two names: 1 for the structured dialogue, 2 for the unstructured, 0 for another. An enum would be one more name for what the definition in the clause says in numbers.
#[tactic(auto, unfolding(crate::specs::inner::Names::kind_of, base::specs::Value::same, crate::specs::Meaning::structured, crate::specs::Meaning::unstructured))]
pub fn name_kind(contents: &[u8]) -> usize
    ensures { result ≡ name_kind contents.now }
{
    match contents {
        [0x00, 0x11, 0x86, 0x05, 0x01, 0x01, 0x01] => 1,
        [0x00, 0x11, 0x86, 0x05, 0x01, 0x02, 0x01] => 2,
        _ => 0,
    }
}
