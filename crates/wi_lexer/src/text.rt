//! The texts that a formula writes in double quotes.

ghost use Rattle.std.specs.Prelude.{◌≡◌, IfOk, string_bytes};
ghost use Rattle.wi_lexer.specs.Inner.Text as spec;

use std::alloc::{AllocError, Global};

/// The content of a text in double quotes: what stands between them, each doubled quote once. Nothing of a text that
/// doesn't begin with a quote.
#[tactic(auto, unfolding(crate::specs::Inner::Text::text_content))]
pub fn text_content(alloc: Global, text: &str) -> Result<String, AllocError>
    ensures { IfOk result (λ content. string_bytes content ≡ spec.text_content text.now) }
{
    let mut content = String::new(alloc);
    let mut rest = text.strip_prefix('"').unwrap_or("");
    while let Some((piece, after)) = rest.split_once('"') {
        content.push_str(piece)?;
        let Some(next) = after.strip_prefix('"') else {
            return Ok(content);
        };
        content.push('"')?;
        rest = next;
    }
    content.push_str(rest)?;
    Ok(content)
}

/// Up to the last quote that may be the last of a text.
pub(crate) fn text_len(text: &[u8]) -> usize
    ensures { result ≡ spec.text_len text.now }
{
    let mut inside = false;
    let mut len = 0;
    for (i, b) in text.iter().enumerate() {
        if *b == b'"' {
            inside = !inside;
            if !inside {
                len = i + 1;
            }
        } else if !inside {
            return len;
        }
    }
    len
}
