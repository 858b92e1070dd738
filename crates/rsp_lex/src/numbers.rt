// Numbers and spans of time, character by character.
ghost use Rattle.std.specs.Prelude.{◌≡◌};
ghost use Rattle.std.specs.Char.{is_ascii_digit};
ghost use Rattle.rsp_lex.specs.Numbers as words;

/// How far an integer is read.
#[derive(Clone, Copy)]
pub(crate) enum IntegerState {
    Start,
    Inside,
}

/// How far a decimal is read.
#[derive(Clone, Copy)]
pub(crate) enum DecimalState {
    Start,
    Whole,
    Point,
    Fraction,
}

/// How far a double is read.
#[derive(Clone, Copy)]
pub(crate) enum DoubleState {
    Start,
    Whole,
    /// A point behind digits.
    Point,
    /// A point at the front.
    FirstPoint,
    Fraction,
    /// `e` or `E`
    Letter,
    Sign,
    Exponent,
}

/// How far a span is read.
#[derive(Clone, Copy)]
pub(crate) enum SpanState {
    Start,
    /// `P`
    Begun,
    DayDigits,
    /// `D`
    Days,
    /// `T`
    Time,
    /// Digits, before which no part, the hours, or the minutes stand last.
    Digits(Part),
    /// The part that stands last.
    Behind(Part),
    /// `.`
    Point,
    Fraction,
}

/// A part of the time of a span.
#[derive(Clone, Copy)]
pub(crate) enum Part {
    None,
    Hours,
    Minutes,
    Seconds,
}

fn is_digit(c: char) -> bool
    ensures { result ≡ is_ascii_digit c }
{
    c.is_ascii_digit()
}

/// The state of an integer with one character more; None where no integer goes on so.
pub(crate) fn integer_step(c: char) -> Option<IntegerState>
    ensures { result ≡ words.integer_step c }
{
    if is_digit(c) {
        Some(IntegerState::Inside)
    } else {
        None
    }
}

/// Whether an integer may end in this state.
pub(crate) fn integer_ends(state: IntegerState) -> bool
    ensures { result ≡ words.integer_ends state }
{
    matches!(state, IntegerState::Inside)
}

/// The state of a decimal with one character more; None where no decimal goes on so.
pub(crate) fn decimal_step(state: DecimalState, c: char) -> Option<DecimalState>
    ensures { result ≡ words.decimal_step state c }
{
    match state {
        DecimalState::Start => decimal_whole(c),
        DecimalState::Whole => decimal_whole(c),
        DecimalState::Point => if is_digit(c) {
            Some(DecimalState::Fraction)
        } else {
            None
        },
        DecimalState::Fraction => if is_digit(c) {
            Some(DecimalState::Fraction)
        } else {
            None
        },
    }
}

fn decimal_whole(c: char) -> Option<DecimalState>
    ensures { result ≡ words.decimal_whole c }
{
    if c == '.' {
        return Some(DecimalState::Point);
    }
    if is_digit(c) {
        Some(DecimalState::Whole)
    } else {
        None
    }
}

/// Whether a decimal may end in this state.
pub(crate) fn decimal_ends(state: DecimalState) -> bool
    ensures { result ≡ words.decimal_ends state }
{
    matches!(state, DecimalState::Fraction)
}

/// The state of a double with one character more; None where no double goes on so.
pub(crate) fn double_step(state: DoubleState, c: char) -> Option<DoubleState>
    ensures { result ≡ words.double_step state c }
{
    match state {
        DoubleState::Start => double_start(c),
        DoubleState::Whole => double_whole(c),
        DoubleState::Point => double_fraction(c),
        DoubleState::FirstPoint => if is_digit(c) {
            Some(DoubleState::Fraction)
        } else {
            None
        },
        DoubleState::Fraction => double_fraction(c),
        DoubleState::Letter => double_exponent(c),
        DoubleState::Sign => if is_digit(c) {
            Some(DoubleState::Exponent)
        } else {
            None
        },
        DoubleState::Exponent => if is_digit(c) {
            Some(DoubleState::Exponent)
        } else {
            None
        },
    }
}

fn double_start(c: char) -> Option<DoubleState>
    ensures { result ≡ words.double_start c }
{
    if c == '.' {
        return Some(DoubleState::FirstPoint);
    }
    if is_digit(c) {
        Some(DoubleState::Whole)
    } else {
        None
    }
}

fn double_whole(c: char) -> Option<DoubleState>
    ensures { result ≡ words.double_whole c }
{
    if c == '.' {
        return Some(DoubleState::Point);
    }
    if c == 'e' || c == 'E' {
        return Some(DoubleState::Letter);
    }
    if is_digit(c) {
        Some(DoubleState::Whole)
    } else {
        None
    }
}

fn double_fraction(c: char) -> Option<DoubleState>
    ensures { result ≡ words.double_fraction c }
{
    if c == 'e' || c == 'E' {
        return Some(DoubleState::Letter);
    }
    if is_digit(c) {
        Some(DoubleState::Fraction)
    } else {
        None
    }
}

fn double_exponent(c: char) -> Option<DoubleState>
    ensures { result ≡ words.double_exponent c }
{
    if c == '+' || c == '-' {
        return Some(DoubleState::Sign);
    }
    if is_digit(c) {
        Some(DoubleState::Exponent)
    } else {
        None
    }
}

/// Whether a double may end in this state.
pub(crate) fn double_ends(state: DoubleState) -> bool
    ensures { result ≡ words.double_ends state }
{
    matches!(state, DoubleState::Exponent)
}

/// The state of a span with one character more; None where no span goes on so.
pub(crate) fn span_step(state: SpanState, c: char) -> Option<SpanState>
    ensures { result ≡ words.span_step state c }
{
    match state {
        SpanState::Start => if c == 'P' {
            Some(SpanState::Begun)
        } else {
            None
        },
        SpanState::Begun => {
            if c == 'T' {
                return Some(SpanState::Time);
            }
            if is_digit(c) {
                Some(SpanState::DayDigits)
            } else {
                None
            }
        }
        SpanState::DayDigits => {
            if c == 'D' {
                return Some(SpanState::Days);
            }
            if is_digit(c) {
                Some(SpanState::DayDigits)
            } else {
                None
            }
        }
        SpanState::Days => if c == 'T' {
            Some(SpanState::Time)
        } else {
            None
        },
        SpanState::Time => if is_digit(c) {
            Some(SpanState::Digits(Part::None))
        } else {
            None
        },
        SpanState::Digits(part) => span_digits(part, c),
        SpanState::Behind(part) => span_behind(part, c),
        SpanState::Point => if is_digit(c) {
            Some(SpanState::Fraction)
        } else {
            None
        },
        SpanState::Fraction => {
            if c == 'S' {
                return Some(SpanState::Behind(Part::Seconds));
            }
            if is_digit(c) {
                Some(SpanState::Fraction)
            } else {
                None
            }
        }
    }
}

fn span_digits(part: Part, c: char) -> Option<SpanState>
    ensures { result ≡ words.span_digits part c }
{
    if is_digit(c) {
        return Some(SpanState::Digits(part));
    }
    match c {
        'H' => match part {
            Part::None => Some(SpanState::Behind(Part::Hours)),
            _ => None,
        },
        'M' => match part {
            Part::None | Part::Hours => Some(SpanState::Behind(Part::Minutes)),
            _ => None,
        },
        'S' => Some(SpanState::Behind(Part::Seconds)),
        '.' => Some(SpanState::Point),
        _ => None,
    }
}

fn span_behind(part: Part, c: char) -> Option<SpanState>
    ensures { result ≡ words.span_behind part c }
{
    match part {
        Part::Seconds => None,
        _ => if is_digit(c) {
            Some(SpanState::Digits(part))
        } else {
            None
        },
    }
}

/// Whether a span may end in this state.
pub(crate) fn span_ends(state: SpanState) -> bool
    ensures { result ≡ words.span_ends state }
{
    matches!(state, SpanState::Days | SpanState::Behind(_))
}
