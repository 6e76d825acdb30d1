// What a term is: the number in its record's first field.
ghost use Rattle.book.specs.Kinds.{Decodes};

#[derive(Clone, Copy, PartialEq, Eq)]
pub enum Kind {
    Boolean,
    Integer,
    CustomLiteral,
    Id,
    BuiltIn,
    Application,
    IfThenElse,
    LetExpr,
    QuantifierExpr,
}

// A number that no kind has.
#[derive(Clone, Copy)]
pub struct NoKind;

impl TryFrom<usize> for Kind {
    type Error = NoKind;

    ghost try_from_gives = { Decodes };

    fn try_from(number: usize) -> Result<Self, NoKind> {
        match number {
            0 => Ok(Kind::Boolean),
            1 => Ok(Kind::Integer),
            2 => Ok(Kind::CustomLiteral),
            3 => Ok(Kind::Id),
            4 => Ok(Kind::BuiltIn),
            5 => Ok(Kind::Application),
            6 => Ok(Kind::IfThenElse),
            7 => Ok(Kind::LetExpr),
            8 => Ok(Kind::QuantifierExpr),
            _ => Err(NoKind),
        }
    }
}
