// The six ops of kind 6, by their numbers in a row's extra column.
ghost use Rattle.std.specs.Prelude.{◌≡◌};
ghost use Rattle.day_rows.specs.Op.{is_op};

// An op, as the extra column holds it: 01's signed number plus 32,768, written so that both can be read.
#[derive(Clone, Copy, PartialEq, Eq)]
pub struct Op(pub u16);

impl Op {
    pub const EQ: u16 = 32_768 + 1;

    pub const GT: u16 = 32_768 + 2;

    pub const GEQ: u16 = 32_768 + 3;

    pub const NEQ: u16 = 32_768 - 1;

    pub const LEQ: u16 = 32_768 - 2;

    pub const LT: u16 = 32_768 - 3;

    // Whether an extra column names one of the six ops. An arm for each, since the check doesn't tell apart
    // the codes of one arm.
    pub fn is_op(extra: u16) -> bool
        ensures { result ≡ is_op extra }
    {
        match extra {
            Op::EQ => true,
            Op::GT => true,
            Op::GEQ => true,
            Op::NEQ => true,
            Op::LEQ => true,
            Op::LT => true,
            _ => false,
        }
    }
}
