// What stands before the group of a query: stream operator, policy and windows.
ghost use Rattle.std.specs.Prelude.{◌≡◌, IfOk, MatchOption, false, true, map};
ghost use Rattle.std.specs.List.{list_all};
ghost use Rattle.rsp_written.specs.GroupMeanings as written;
ghost use Rattle.rsp_numbering.specs.Clauses as numbered;
ghost use Rattle.rsp_numbering.specs.Limits as limits;

use rsp_query::{Operator, PolicyWords, Strategy, Window, WindowClause};
use rsp_spec::limits::LAST_INSTANT;
use rsp_terms::{Listed, Text};
use rsp_text::span;
use rsp_written::{Keyword, Kind, Policy};
use std::alloc::{AllocError, Global};

fn milliseconds(text: &Text) -> u64
    ensures { result ≡ numbered.milliseconds text.now }
{
    span(text.as_str().as_bytes()).unwrap_or(0)
}

pub(crate) fn operator_of(kind: Kind) -> Operator
    ensures { result ≡ numbered.operator_of kind }
{
    match kind {
        Kind::Word(Keyword::Istream) => Operator::Istream,
        Kind::Word(Keyword::Dstream) => Operator::Dstream,
        _ => Operator::Rstream,
    }
}

// ---- policies

fn period_of(period: &Option<Text>) -> u64
    ensures { result ≡ numbered.period_of period.now }
{
    match period {
        None => 0,
        Some(text) => milliseconds(text),
    }
}

fn strategy_of(strategy: &rsp_written::Strategy) -> Strategy
    ensures { result ≡ numbered.strategy_of (written.strategy_of strategy.now) }
{
    let period = period_of(&strategy.period);
    match strategy.kind {
        Kind::Word(Keyword::Change) => Strategy::Change,
        Kind::Word(Keyword::NonEmpty) => Strategy::NonEmpty,
        Kind::Word(Keyword::Every) => Strategy::Every(period),
        _ => Strategy::Close,
    }
}

fn strategies_of(
    alloc: Global,
    strategies: &[rsp_written::Strategy],
) -> Result<Listed<Strategy>, AllocError>
    ensures { IfOk result (λ made. made ≡ map numbered.strategy_of (map written.strategy_of strategies.now)) }
{
    let mut made = Listed::new(alloc);
    for strategy in strategies {
        made.push(strategy_of(strategy))?;
    }
    Ok(made)
}

fn is_tuple(kind: Kind) -> bool
    ensures { result ≡ numbered.is_tuple kind }
{
    match kind {
        Kind::Word(Keyword::Tuple) => true,
        _ => false,
    }
}

fn profile_of(kind: Kind) -> PolicyWords
    ensures { result ≡ numbered.profile_of kind }
{
    match kind {
        Kind::Word(Keyword::Cqels) => PolicyWords::Cqels,
        _ => PolicyWords::Csparql,
    }
}

pub(crate) fn policy_of(alloc: Global, policy: &Option<Policy>) -> Result<PolicyWords, AllocError>
    ensures { IfOk result (λ words. words ≡ numbered.policy_of (written.maybe_policy policy.now)) }
{
    match policy {
        None => Ok(PolicyWords::Absent),
        Some(Policy::Profile(kind)) => Ok(profile_of(*kind)),
        Some(Policy::Reporting { strategies, tick }) => Ok(PolicyWords::Listed {
            strategies: strategies_of(alloc, strategies)?,
            tuple: is_tuple(*tick),
        }),
    }
}

// ---- windows

fn slide_of(words: &PolicyWords, width: u64, slide: &Option<Text>) -> u64
    ensures { result ≡ numbered.slide_of words.now width slide.now }
{
    match slide {
        Some(text) => milliseconds(text),
        None => default_slide(words, width),
    }
}

fn default_slide(words: &PolicyWords, width: u64) -> u64
    ensures { result ≡ numbered.default_slide words.now width }
{
    match words {
        PolicyWords::Cqels => 1,
        _ => width,
    }
}

fn shape_of(words: &PolicyWords, window: &rsp_written::Window) -> Option<Window>
    ensures { MatchOption result (limits.is_within (written.window_of window.now) ≡ false)
        (λ shape. (limits.is_within (written.window_of window.now) ≡ true)
        × (shape ≡ numbered.shape_of words.now (written.window_of window.now))) }
{
    if !is_within(window) {
        return None;
    }
    let width = milliseconds(&window.range);
    let slide = slide_of(words, width, &window.slide);
    match Window::new(width, slide, window.origin.unwrap_or(0)) {
        None => unreachable!(),
        Some(shape) => Some(shape),
    }
}

/// The clauses of windows; None where one isn't within the limits.
pub(crate) fn windows_of(
    alloc: Global,
    words: &PolicyWords,
    windows: &[rsp_written::Window],
) -> Result<Option<Vec<WindowClause>>, AllocError>
    ensures { IfOk result (λ made. MatchOption made (list_all limits.is_within (map written.window_of windows.now) ≡ false)
        (λ clauses. (list_all limits.is_within (map written.window_of windows.now) ≡ true)
        × (clauses.items ≡ map (numbered.clause_of words.now) (map written.window_of windows.now)))) }
{
    let mut made = Vec::new(alloc);
    for window in windows {
        match shape_of(words, window) {
            None => return Ok(None),
            Some(shape) => made.push(WindowClause {
                name: window.name.share()?,
                stream: window.stream.share()?,
                window: shape,
                at: window.at,
            })?,
        }
    }
    Ok(Some(made))
}

// ---- limits

fn is_span(text: &Text) -> bool
    ensures { result ≡ limits.is_span text.now }
{
    0 < milliseconds(text)
}

fn is_span_or_none(text: &Option<Text>) -> bool
    ensures { result ≡ limits.is_span_or_none text.now }
{
    match text {
        None => true,
        Some(text) => is_span(text),
    }
}

fn is_within(window: &rsp_written::Window) -> bool
    ensures { result ≡ limits.is_within (written.window_of window.now) }
{
    if !is_span(&window.range) {
        return false;
    }
    if !is_span_or_none(&window.slide) {
        return false;
    }
    window.origin.unwrap_or(0) <= LAST_INSTANT
}

/// Whether each period of a policy is within the limits.
pub(crate) fn has_periods(policy: &Option<Policy>) -> bool
    ensures { result ≡ limits.has_periods (written.maybe_policy policy.now) }
{
    match policy {
        Some(Policy::Reporting { strategies, .. }) => are_periodic(strategies),
        _ => true,
    }
}

fn are_periodic(strategies: &[rsp_written::Strategy]) -> bool
    ensures { result ≡ list_all limits.is_periodic (map written.strategy_of strategies.now) }
{
    for strategy in strategies {
        if !is_span_or_none(&strategy.period) {
            return false;
        }
    }
    true
}
