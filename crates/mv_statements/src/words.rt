//! The words of a line, read one after another.
ghost use Rattle.std.specs.Prelude.{◌≡◌, ◌∷◌, ◌≤◌, ◌<◌, IfOk, Ok, Err, length};
ghost use Rattle.std.specs.Str.{is_utf8};
ghost use Rattle.mv_scan.specs.declared.token.Token.TheVariants.{Quoted};
ghost use Rattle.mv_statements.specs.declared.fault.TextKind.TheVariants.{Count};
ghost use Rattle.mv_statements.specs.Form.{clean, with_fault};
ghost use Rattle.mv_statements.specs.FormLaws.{judged};
ghost use Rattle.mv_statements.specs.Numerals.{constant};
ghost use Rattle.mv_statements.specs.Words.{arrow, arrow_in, before_arrow, constant_word, is_arrow, kind, kind_in, mutable, mutable_in, name, name_in, number, number_in, number_up_to, text, text_in, val_type, val_type_in};

use crate::fault::{TextKind, sooner};
use crate::numerals::{read_constant, read_numeral};
use mv_calls::{Bytes, OutOfMemory};
use mv_scan::{Token, is_word};
use mv_syntax::ValType;
use std::alloc::Global;
use std::marker::Model;
use std::str::from_utf8;

/// The words that are left, and the first kind of fault that was met.
#[derive(Drop)]
pub struct Words<'a> {
    rest: &'a [Token],
    fault: Option<TextKind>,
}

impl<'a> Model for Words<'a> {
    ghost use Rattle.mv_statements.specs.Form.{At};

    ghost Value = { At };

    ghost view = { λ w. record { rest = w.rest.now; fault = w.fault } };
}

/// A number in a word.
fn number_in(token: &Token, most: u32) -> Result<u32, TextKind>
    ensures { result ≡ number_in (number_up_to most) token.now }
{
    match token {
        Token::Plain(word) => match read_numeral(word.slice(), u64::from(most)) {
            Some(n) => Ok(n as u32),
            None => Err(TextKind::Number),
        },
        Token::Quoted(Some(_)) => Err(TextKind::Number),
        Token::Quoted(None) => Err(TextKind::Quote),
        Token::Glued => Err(TextKind::Number),
    }
}

/// A constant in a word.
fn constant_in(token: &Token, vtype: ValType) -> Result<u64, TextKind>
    ensures { result ≡ number_in (constant vtype) token.now }
{
    match token {
        Token::Plain(word) => match read_constant(vtype, word.slice()) {
            Some(n) => Ok(n),
            None => Err(TextKind::Number),
        },
        Token::Quoted(Some(_)) => Err(TextKind::Number),
        Token::Quoted(None) => Err(TextKind::Quote),
        Token::Glued => Err(TextKind::Number),
    }
}

fn val_type_in(token: &Token) -> Result<ValType, TextKind>
    ensures { result ≡ val_type_in token.now }
{
    if is_word(b"i32", token) {
        Ok(ValType::I32)
    } else if is_word(b"i64", token) {
        Ok(ValType::I64)
    } else {
        Err(TextKind::Word)
    }
}

fn mutable_in(token: &Token) -> Result<bool, TextKind>
    ensures { result ≡ mutable_in token.now }
{
    if is_word(b"const", token) {
        Ok(false)
    } else if is_word(b"var", token) {
        Ok(true)
    } else {
        Err(TextKind::Word)
    }
}

fn kind_in(token: &Token) -> Result<u8, TextKind>
    ensures { result ≡ kind_in token.now }
{
    if is_word(b"func", token) {
        Ok(0)
    } else if is_word(b"table", token) {
        Ok(1)
    } else if is_word(b"memory", token) {
        Ok(2)
    } else if is_word(b"global", token) {
        Ok(3)
    } else {
        Err(TextKind::Word)
    }
}

fn arrow_in(token: &Token) -> Result<bool, TextKind>
    ensures { result ≡ arrow_in token.now }
{
    if is_word(b"->", token) {
        Ok(true)
    } else {
        Err(TextKind::Word)
    }
}

fn text_in(alloc: Global, token: &Token) -> Result<Result<Bytes, TextKind>, OutOfMemory>
    ensures { IfOk result (λ found. found ≡ text_in token.now) }
{
    match token {
        Token::Quoted(Some(text)) => Ok(Ok(text.copy(alloc)?)),
        _ => Ok(Err(TextKind::Quote)),
    }
}

/// Whether the bytes are UTF-8.
fn is_text(bytes: &[u8]) -> bool
    ensures { result ≡ is_utf8 bytes.now }
{
    match from_utf8(bytes) {
        Ok(_) => true,
        Err(_) => false,
    }
}

fn name_in(alloc: Global, token: &Token) -> Result<Result<Bytes, TextKind>, OutOfMemory>
    ensures { IfOk result (λ found. found ≡ name_in token.now) }
{
    match token {
        Token::Quoted(Some(text)) => {
            if is_text(text.slice()) {
                Ok(Ok(text.copy(alloc)?))
            } else {
                Ok(Err(TextKind::Quote))
            }
        }
        _ => Ok(Err(TextKind::Quote)),
    }
}

/// How many words stand before the first arrow.
fn count_to_arrow(tokens: &[Token]) -> usize
    ensures count { result ≡ before_arrow tokens.now }
    ensures within { result ≤ length tokens.now }
{
    for (index, token) in tokens.iter().enumerate() {
        if is_word(b"->", token) {
            return index;
        }
    }
    tokens.len()
}

impl<'a> Words<'a> {
    /// These words, none of which was read.
    pub fn new(rest: &'a [Token]) -> Words<'a>
        ensures { result ≡ clean rest.now }
    {
        Words { rest, fault: None }
    }

    /// How many words are left.
    pub fn left(&self) -> usize
        ensures { result ≡ length self.now.rest }
    {
        self.rest.len()
    }

    /// How many words stand before the first arrow, or how many are left.
    pub fn before_arrow(&self) -> usize
        ensures { result ≡ before_arrow self.now.rest }
    {
        count_to_arrow(self.rest)
    }

    /// The first kind of fault that was met.
    pub fn fault(&self) -> Option<TextKind>
        ensures { result ≡ self.now.fault }
    {
        self.fault
    }

    /// A fault is met.
    pub fn refuse(&mut self, kind: TextKind)
        ensures { self.new ≡ with_fault kind self.old }
    {
        self.fault = Some(sooner(self.fault, kind));
    }

    /// What a word means, or another value with a fault.
    fn judge<T: Drop>(&mut self, other: T, meant: Result<T, TextKind>) -> T
        ensures { (result, self.new) ≡ judged other self.old meant }
    {
        match meant {
            Ok(value) => value,
            Err(kind) => {
                self.refuse(kind);
                other
            }
        }
    }

    /// A number of at most `most`.
    #[tactic(auto, unfolding(crate::specs::Words::number))]
    pub fn number(&mut self, most: u32) -> u32
        ensures { (result, self.new) ≡ (number most).reads self.old }
    {
        match self.rest {
            [] => self.judge(0, Err(TextKind::Count)),
            [token, rest @ ..] => {
                self.rest = rest;
                self.judge(0, number_in(token, most))
            }
        }
    }

    /// An index, an offset or an alignment.
    pub fn index(&mut self) -> u32
        ensures { (result, self.new) ≡ (number 4294967295).reads self.old }
    {
        self.number(0xffff_ffff)
    }

    /// A constant.
    #[tactic(auto, unfolding(crate::specs::Words::constant_word))]
    pub fn constant(&mut self, vtype: ValType) -> u64
        ensures { (result, self.new) ≡ (constant_word vtype).reads self.old }
    {
        match self.rest {
            [] => self.judge(0, Err(TextKind::Count)),
            [token, rest @ ..] => {
                self.rest = rest;
                self.judge(0, constant_in(token, vtype))
            }
        }
    }

    /// A type.
    #[tactic(auto, unfolding(crate::specs::Words::val_type))]
    pub fn val_type(&mut self) -> ValType
        ensures { (result, self.new) ≡ val_type.reads self.old }
    {
        match self.rest {
            [] => self.judge(ValType::I32, Err(TextKind::Count)),
            [token, rest @ ..] => {
                self.rest = rest;
                self.judge(ValType::I32, val_type_in(token))
            }
        }
    }

    /// `const` or `var`.
    #[tactic(auto, unfolding(crate::specs::Words::mutable))]
    pub fn mutable(&mut self) -> bool
        ensures { (result, self.new) ≡ mutable.reads self.old }
    {
        match self.rest {
            [] => self.judge(false, Err(TextKind::Count)),
            [token, rest @ ..] => {
                self.rest = rest;
                self.judge(false, mutable_in(token))
            }
        }
    }

    /// What is exported.
    #[tactic(auto, unfolding(crate::specs::Words::kind))]
    pub fn kind(&mut self) -> u8
        ensures { (result, self.new) ≡ kind.reads self.old }
    {
        match self.rest {
            [] => self.judge(0, Err(TextKind::Count)),
            [token, rest @ ..] => {
                self.rest = rest;
                self.judge(0, kind_in(token))
            }
        }
    }

    /// `->`
    #[tactic(auto, unfolding(crate::specs::Words::arrow))]
    pub fn arrow(&mut self) -> bool
        ensures { (result, self.new) ≡ arrow.reads self.old }
    {
        match self.rest {
            [] => self.judge(true, Err(TextKind::Count)),
            [token, rest @ ..] => {
                self.rest = rest;
                self.judge(true, arrow_in(token))
            }
        }
    }

    /// The bytes of a text in quotes.
    #[tactic(auto, unfolding(crate::specs::Words::text))]
    pub fn text(&mut self, alloc: Global) -> Result<Bytes, OutOfMemory>
        ensures { IfOk result (λ bytes. (bytes, self.new) ≡ text.reads self.old) }
    {
        let none = Bytes::from_vec(Vec::new(alloc));
        match self.rest {
            [] => Ok(self.judge(none, Err(TextKind::Count))),
            [token, rest @ ..] => {
                self.rest = rest;
                let meant = text_in(alloc, token)?;
                Ok(self.judge(none, meant))
            }
        }
    }

    /// A text in quotes that is UTF-8.
    #[tactic(auto, unfolding(crate::specs::Words::name))]
    pub fn name(&mut self, alloc: Global) -> Result<Bytes, OutOfMemory>
        ensures { IfOk result (λ bytes. (bytes, self.new) ≡ name.reads self.old) }
    {
        let none = Bytes::from_vec(Vec::new(alloc));
        match self.rest {
            [] => Ok(self.judge(none, Err(TextKind::Count))),
            [token, rest @ ..] => {
                self.rest = rest;
                let meant = name_in(alloc, token)?;
                Ok(self.judge(none, meant))
            }
        }
    }
}
