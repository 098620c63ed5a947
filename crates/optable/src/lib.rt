// The operand form of each op, looked up in one table of 256 entries.
#![tactic(auto)]

ghost use Rattle.std.specs.Prelude.{◌≡◌};
ghost use Rattle.spec.specs.Op.{form_of, operands_fit};
ghost use Rattle.optable.specs.Forms.{meaning};

// Which of the bytes d, a, b an op uses. An unknown op has a form of its own.
#[derive(Clone, Copy, PartialEq, Eq)]
pub enum Form {
    SetForm,
    DForm,
    DabForm,
    DaForm,
    AForm,
    NoForm,
    UnknownForm,
}

// 0 unknown, 1 SET, 2 d, 3 d a b, 4 d a, 5 a, 6 none. Codes and not forms: a table of 256 enum values was tried, and the proof of its look-up doesn't close (over 200,000 steps).
const FORMS: [u8; 256] = [
    0, // 0
    1, // 1 SET
    2, // 2 TID
    2, // 3 COUNT
    3, // 4 ADD
    3, // 5 SUB
    3, // 6 MUL
    3, // 7 AND
    3, // 8 OR
    3, // 9 XOR
    3, // 10 SHR
    3, // 11 SAR
    3, // 12 EQ
    3, // 13 LT
    3, // 14 SLT
    0, // 15
    4, // 16 LOAD
    4, // 17 STORE
    4, // 18 ATOMIC ADD
    2, // 19 LAUNCH NUMBER
    4, // 20 GLOBAL LOAD
    4, // 21 GLOBAL STORE
    4, // 22 GLOBAL ADD
    0, // 23 and on
    0, 0, 0, 0, 0, 0, 0, 0, 5, // 32 IF
    6, // 33 ELSE
    6, // 34 ENDIF
    5, // 35 WHILE
    6, // 36 ENDWHILE
    6, // 37 BARRIER
    0, // 38 and on
    0, 0, 0, 0, 0, 0, 0, 0, 0, 0, 0, 0, 0, 0, 0, 0, 0, 0, 0, 0, 0, 0, 0, 0, 0, 0, 0, 0, 0, 0, 0, 0,
    0, 0, 0, 0, 0, 0, 0, 0, 0, 0, 0, 0, 0, 0, 0, 0, 0, 0, 0, 0, 0, 0, 0, 0, 0, 0, 0, 0, 0, 0, 0, 0,
    0, 0, 0, 0, 0, 0, 0, 0, 0, 0, 0, 0, 0, 0, 0, 0, 0, 0, 0, 0, 0, 0, 0, 0, 0, 0, 0, 0, 0, 0, 0, 0,
    0, 0, 0, 0, 0, 0, 0, 0, 0, 0, 0, 0, 0, 0, 0, 0, 0, 0, 0, 0, 0, 0, 0, 0, 0, 0, 0, 0, 0, 0, 0, 0,
    0, 0, 0, 0, 0, 0, 0, 0, 0, 0, 0, 0, 0, 0, 0, 0, 0, 0, 0, 0, 0, 0, 0, 0, 0, 0, 0, 0, 0, 0, 0, 0,
    0, 0, 0, 0, 0, 0, 0, 0, 0, 0, 0, 0, 0, 0, 0, 0, 0, 0, 0, 0, 0, 0, 0, 0, 0, 0, 0, 0, 0, 0, 0, 0,
    0, 0, 0, 0, 0, 0, 0, 0, 0, 0, 0, 0, 0, 0, 0, 0, 0, 0, 0, 0, 0, 0, 0, 0, 0,
];

pub fn form_of(op: u8) -> Form
    ensures { meaning result ≡ form_of op }
{
    let code = FORMS[op as usize];
    match code {
        1 => Form::SetForm,
        2 => Form::DForm,
        3 => Form::DabForm,
        4 => Form::DaForm,
        5 => Form::AForm,
        6 => Form::NoForm,
        _ => Form::UnknownForm,
    }
}

// Registers are below 16, and bytes that the op does not use are 0.
#[tactic(auto, unfolding(spec::specs::Op::operands_fit, spec::specs::Op::is_register, spec::specs::Op::is_unused))]
pub fn operands_fit(form: Form, d: u8, a: u8, b: u8) -> bool
    ensures { result ≡ operands_fit (meaning form) d a b }
{
    match form {
        Form::SetForm => d < 16,
        Form::DForm => (d < 16) & (a == 0) & (b == 0),
        Form::DabForm => (d < 16) & (a < 16) & (b < 16),
        Form::DaForm => (d < 16) & (a < 16) & (b == 0),
        Form::AForm => (d == 0) & (a < 16) & (b == 0),
        Form::NoForm => (d == 0) & (a == 0) & (b == 0),
        Form::UnknownForm => true,
    }
}
