//! How far a rules text was read.

use crate::lists::Rules;
use crate::rule::Rule;

/// The version of a text, which its first line names.
#[derive(Clone, Copy)]
pub enum Version {
    First,
    Second,
}

/// Outside a rule, or in the left or right side of the one that was begun.
#[derive(Drop)]
pub enum Phase {
    Outside,
    InLeft(Rule),
    InRight(Rule),
}

/// The rules that were ended, and where the text has got to.
#[derive(Drop)]
pub struct Reading {
    pub rules: Rules,
    pub phase: Phase,
}
