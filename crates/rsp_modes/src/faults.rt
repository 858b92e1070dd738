// The first fault of a query's file.
ghost use Rattle.std.specs.Prelude.{◌≡◌, IfOk, MatchResult, None, Some};
ghost use Rattle.rsp_modes.specs.Checks.{bytes_fault, file_fault};

use rsp_engine::{LimitName, SyntaxFault, TextFault, text_fault};
use rsp_spec::limits::MOST_TEXT_BYTES;
use std::alloc::{AllocError, Global};
use std::str;

/// The first fault of the file of a query, by its text alone. Fails only where memory is refused.
pub(crate) fn file_fault(alloc: Global, bytes: &[u8]) -> Result<Option<TextFault>, AllocError>
    ensures { IfOk result (λ found. found ≡ file_fault bytes.now) }
{
    match text_in(bytes) {
        Ok(text) => text_fault(alloc, text),
        Err(why) => Ok(Some(why)),
    }
}

/// The text in a file, or why it can be none of a query: it is longer than such a text may be, or no UTF-8.
pub(crate) fn text_in(bytes: &[u8]) -> Result<&str, TextFault>
    ensures { MatchResult result (λ text. (text.now ≡ bytes.now) × (bytes_fault bytes.now ≡ None))
        (λ why. bytes_fault bytes.now ≡ Some why) }
{
    if MOST_TEXT_BYTES < bytes.len() {
        let what = LimitName::Text;
        return Err(TextFault::Syntax(SyntaxFault::Limit { what }));
    }
    match str::from_utf8(bytes) {
        Ok(text) => Ok(text),
        Err(error) => {
            let at = error.valid_up_to();
            Err(TextFault::Syntax(SyntaxFault::BadToken { at }))
        }
    }
}
