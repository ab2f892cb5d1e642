//! From the bytes of a text to its tokens.
ghost use Rattle.opl_token.specs.Comment as comment;
ghost use Rattle.opl_token.specs.Lexeme as lexeme;
ghost use Rattle.opl_token.specs.Longest as longest;
ghost use Rattle.opl_token.specs.Scan as spec;
ghost use Rattle.opl_token.specs.Scan.{Scans, Faults};
ghost use Rattle.std.specs.Char.{is_ascii_digit};
ghost use Rattle.std.specs.List.{prefix_len, AllPass};
ghost use Rattle.std.specs.Prelude.{◌≡◌, ◌^◌, ◌<◌, ◌≤◌, length, IfOk, IfSome, MatchResult};

use crate::fault::ScanFault;
use crate::sign::{SIGNS, Sign};
use crate::token::{Kind, Name, Token};
use opl_list::Seq;
use std::alloc::{AllocError, Global};

/// A lexeme, and how many bytes it has.
#[derive(Drop)]
struct Lexeme {
    kind: Kind,
    len: usize,
}

/// The tokens of a text, which is its one row of blanks, comments and longest lexemes. A fault names the first place
/// that such pieces reach and at which none begins, or tells that memory is wanting.
pub fn scan(alloc: Global, bytes: &[u8]) -> Result<Seq<Token>, ScanFault>
    requires { length bytes.now < 2 ^ 32 }
    ensures { MatchResult result (λ tokens. Scans bytes.now tokens) (Faults bytes.now) }
{
    let mut tokens = Vec::new(alloc);
    let mut at = 0;
    while at < bytes.len() {
        let rest = &bytes[at..];
        let gap = gap_len(rest);
        if gap > 0 {
            at += gap;
        } else {
            let Some(Lexeme { kind, len }) = lexeme_at(alloc, rest)? else {
                return Err(fault_at(at as u32, rest));
            };
            let token = Token {
                kind,
                at: at as u32,
            };
            tokens.push(token)?;
            at += len;
        }
    }
    Ok(Seq::from_vec(tokens))
}

/// The lexeme that `bytes` begin with.
fn lexeme_at(alloc: Global, bytes: &[u8]) -> Result<Option<Lexeme>, AllocError>
    ensures { IfOk result (λ found. found ≡ longest.lexeme_at bytes.now) }
{
    match bytes {
        [first, ..] if is_word_start(*first) => Ok(Some(word_at(alloc, bytes)?)),
        [first, ..] if first.is_ascii_digit() => Ok(number_at(bytes)),
        [b'"', rest @ ..] => text_at(alloc, rest),
        _ => Ok(sign_at(bytes)),
    }
}

/// The word that `bytes` begin with.
fn word_at(alloc: Global, bytes: &[u8]) -> Result<Lexeme, AllocError>
    ensures { IfOk result (λ found. found ≡ longest.word_at bytes.now) }
{
    let len = word_len(bytes);
    let name = Name::from_slice(alloc, &bytes[..len])?;
    Ok(Lexeme {
        kind: Kind::Word(name),
        len,
    })
}

/// The number that `bytes` begin with.
#[tactic(auto, using(crate::proofs::Runs::run_passes))]
fn number_at(bytes: &[u8]) -> Option<Lexeme>
    ensures { result ≡ longest.number_at bytes.now }
{
    let len = digits_len(bytes);
    let value = value_of(&bytes[..len])?;
    Some(Lexeme {
        kind: Kind::Number(value),
        len,
    })
}

/// The text whose first `"` stands before `bytes`, if it has a second one.
fn text_at(alloc: Global, bytes: &[u8]) -> Result<Option<Lexeme>, AllocError>
    ensures { IfOk result (λ found. found ≡ longest.text_at bytes.now) }
{
    let len = text_len(bytes);
    let behind = &bytes[len..];
    match behind {
        [b'"', ..] => {
            let text = Name::from_slice(alloc, &bytes[..len])?;
            Ok(Some(Lexeme {
                kind: Kind::Text(text),
                len: len + 2,
            }))
        }
        _ => Ok(None),
    }
}

/// The sign that `bytes` begin with.
fn sign_at(bytes: &[u8]) -> Option<Lexeme>
    ensures { result ≡ longest.sign_at bytes.now }
{
    let sign = longest_sign(bytes)?;
    Some(Lexeme {
        kind: Kind::Sign(sign),
        len: sign.text().len(),
    })
}

/// The longest sign that `bytes` begin with.
fn longest_sign(bytes: &[u8]) -> Option<Sign>
    ensures { result ≡ longest.longest_sign bytes.now }
{
    SIGNS
        .iter()
        .copied()
        .find(|sign| bytes.starts_with(sign.text()))
}

/// How many bytes of a word `bytes` begin with.
fn word_len(bytes: &[u8]) -> usize
    ensures { result ≡ prefix_len lexeme.is_word_byte bytes.now }
{
    bytes.iter().take_while(|byte| is_word_byte(**byte)).count()
}

/// How many digits `bytes` begin with.
fn digits_len(bytes: &[u8]) -> usize
    ensures { result ≡ prefix_len is_ascii_digit bytes.now }
{
    bytes
        .iter()
        .take_while(|byte| byte.is_ascii_digit())
        .count()
}

/// How many bytes that may stand in a text `bytes` begin with.
fn text_len(bytes: &[u8]) -> usize
    ensures value { result ≡ prefix_len lexeme.is_text_byte bytes.now }
    ensures within { result ≤ length bytes.now }
{
    bytes.iter().take_while(|byte| is_text_byte(**byte)).count()
}

/// How many bytes the blank or the comment has that `bytes` begin with, or 0.
fn gap_len(bytes: &[u8]) -> usize
    requires { length bytes.now < 2 ^ 32 }
    ensures { result ≡ longest.gap_len bytes.now }
{
    match bytes {
        [first, ..] if is_blank(*first) => 1,
        _ => comment_len(bytes).unwrap_or(0),
    }
}

/// How many bytes the comment has that `bytes` begin with.
fn comment_len(bytes: &[u8]) -> Option<usize>
    requires { length bytes.now < 2 ^ 32 }
    ensures { result ≡ longest.comment_len bytes.now }
{
    match bytes {
        [b'/', b'/', rest @ ..] => Some(2 + line_len(rest)),
        [b'/', b'*', rest @ ..] => Some(2 + block_len(rest)?),
        _ => None,
    }
}

/// How many bytes there are before the first line feed.
fn line_len(bytes: &[u8]) -> usize
    ensures value { result ≡ prefix_len comment.is_in_line bytes.now }
    ensures within { result ≤ length bytes.now }
{
    bytes.iter().take_while(|byte| **byte != b'\n').count()
}

/// How many bytes there are up to the first `*/` and with it.
fn block_len(bytes: &[u8]) -> Option<usize>
    requires { length bytes.now < 2 ^ 32 }
    ensures value { result ≡ longest.block_len bytes.now }
    ensures within { IfSome result (λ len. len ≤ length bytes.now) }
{
    for at in 0..bytes.len() {
        if bytes[at..].starts_with(b"*/") {
            return Some(at + 2);
        }
    }
    None
}

/// The value of decimal digits, unless it is greater than `2^127 - 1`.
fn value_of(digits: &[u8]) -> Option<i128>
    requires { AllPass is_ascii_digit digits.now }
    ensures { result ≡ longest.small_number digits.now }
{
    let mut value: u128 = 0;
    for digit in digits {
        value = value
            .checked_mul(10)?
            .checked_add(u128::from(*digit - b'0'))?;
    }
    i128::try_from(value).ok()
}

/// The fault of bytes that begin with no blank, comment or lexeme.
fn fault_at(at: u32, rest: &[u8]) -> ScanFault
    ensures { result ≡ spec.fault_at at rest.now }
{
    match rest {
        [b'/', b'*', ..] => ScanFault::OpenComment(at),
        [b'"', ..] => ScanFault::OpenString(at),
        [first, ..] if first.is_ascii_digit() => ScanFault::NumberTooLarge(at),
        _ => ScanFault::BadByte(at),
    }
}

/// Whether `byte` is a blank.
fn is_blank(byte: u8) -> bool
    ensures { result ≡ lexeme.is_blank byte }
{
    matches!(byte, b' ' | b'\t' | b'\r' | b'\n')
}

/// Whether `byte` may stand in a text.
fn is_text_byte(byte: u8) -> bool
    ensures { result ≡ lexeme.is_text_byte byte }
{
    matches!(byte, b' '..=b'~') && byte != b'"'
}

/// Whether a word may begin with `byte`.
fn is_word_start(byte: u8) -> bool
    ensures { result ≡ lexeme.is_word_start byte }
{
    byte.is_ascii_alphabetic() || byte == b'_'
}

/// Whether a word may have `byte` behind its first.
fn is_word_byte(byte: u8) -> bool
    ensures { result ≡ lexeme.is_word_byte byte }
{
    byte.is_ascii_alphanumeric() || byte == b'_'
}
