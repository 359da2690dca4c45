//! Tokens. A newline is written `~`.

use crate::rest::{Rest, holds, is_fault, put_times, sides, told, unmarked};
use crate::statements::has_items;
use asm_lex::{SourceCause, SourceFault, Token, TokenKind, lex};
use std::alloc::Global;
use std::process::Abort;

/// A text, and its tokens: the kind, and a mark's character, the place and the number of bytes.
const LEXED: &str = "\
a:\t.long 'b, \"c;\" # d~-0x8F,a/* ~ */; => Name 0 1;Mark : 1 1;Name 3 5;Number 9 2;Mark , 11 1;Text 13 4;End 21 1;\
    Mark - 22 1;Number 23 4;Mark , 27 1;Name 28 1;End 36 1;
movl $1,%eex~ => Name 0 4;Mark $ 5 1;Number 6 1;Mark , 7 1;Mark % 8 1;Name 9 3;End 12 1;
";

fn take_kind(rest: &mut Rest<'_>, kind: TokenKind) {
    match kind {
        TokenKind::Name => rest.take(b"Name"),
        TokenKind::Number => rest.take(b"Number"),
        TokenKind::Text => rest.take(b"Text"),
        TokenKind::Mark(mark) => rest.take(&[b'M', b'a', b'r', b'k', b' ', mark]),
        TokenKind::End => rest.take(b"End"),
    }
}

fn take_tokens(rest: &mut Rest<'_>, alloc: Global, tokens: &[Token]) {
    for token in tokens {
        take_kind(rest, token.kind);
        rest.take_text(format!(in alloc; " {} {};", token.at, token.len));
    }
}

/// Whether a text has the tokens that are listed.
fn is_lexed(alloc: Global, text: &[u8], listed: &str) -> bool {
    let mut rest = Rest::new(listed.as_bytes());
    match lex(alloc, text) {
        Ok(tokens) => take_tokens(&mut rest, alloc, &tokens),
        Err(_) => return false,
    }
    rest.is_done()
}

fn has_its_tokens(rt: &impl Abort, alloc: Global, row: &str) {
    let (text, listed) = sides(row);
    let text = unmarked(rt, alloc, text);
    told(rt, row, is_lexed(alloc, &text, listed));
}

#[test]
fn tokens_have_their_kinds_and_places(rt: HostRuntime) {
    for row in LEXED.lines() {
        has_its_tokens(&rt, rt.alloc(), row);
    }
}

/// Texts, and the line and the number of their refusal.
const REFUSED: &str = "\
a:\t.long 'b, \"c;\" # d~-08$/* ~ */ => 2 6
a~\u{7f} => 2 1
# \u{1} => 1 1
a ! => 1 2
~/ * => 2 2
~/* ~ * => 2 3
\"a~\" => 1 4
\"a\\ => 1 4
\"\\x41\" => 1 5
08 => 1 6
0x => 1 6
1f => 1 6
'~ => 1 6
";

/// Whether a text is refused as it is listed.
fn is_refused(alloc: Global, text: &[u8], listed: &str) -> bool {
    match lex(alloc, text) {
        Err(SourceFault::At { line, cause }) => is_fault(alloc, listed, line, cause.number()),
        _ => false,
    }
}

fn has_its_refusal(rt: &impl Abort, alloc: Global, row: &str) {
    let (text, listed) = sides(row);
    let text = unmarked(rt, alloc, text);
    told(rt, row, is_refused(alloc, &text, listed));
}

#[test]
fn refusals_have_their_lines(rt: HostRuntime) {
    for row in REFUSED.lines() {
        has_its_refusal(&rt, rt.alloc(), row);
    }
}

#[test]
fn refusals_show_their_numbers(rt: HostRuntime) {
    let fault = SourceFault::At {
        line: 7,
        cause: SourceCause::TooLong,
    };
    let text = format!(in rt.alloc(); "{fault}").expect(&rt, "memory");
    assert!(rt; text.as_str() == "refused 13 line 7");
}

/// Whether a text has 2,000 tokens, the last of which is the end of the last line.
fn has_tokens(alloc: Global, text: &[u8]) -> bool {
    match lex(alloc, text) {
        Ok(tokens) => {
            tokens.len() == 2000
                && tokens.last()
                    == Some(&Token {
                        kind: TokenKind::End,
                        at: 3999,
                        len: 1,
                    })
        }
        Err(_) => false,
    }
}

#[test]
fn long_texts_have_all_their_tokens(rt: HostRuntime) {
    let mut text = Vec::new(rt.alloc());
    put_times(&rt, &mut text, b"nop\n", 1000);
    holds(&rt, 0, has_tokens(rt.alloc(), &text));
    holds(&rt, 1, has_items(rt.alloc(), &text, 1000));
}
