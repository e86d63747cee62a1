//! The closed user groups to which a caller belongs.

ghost use Rattle.std.specs.Prelude.{◌≡◌, ◌<◌, ◌==◌, ℕ, List, [], Ok, Err, MatchResult, length, IfOk, IfErr, slice_get, Some};
ghost use Rattle.std.specs.List.{list_any};
ghost use Rattle.std.specs.Str.{bytes_eq};
ghost use Rattle.frame_records.specs.Groups.{AreGroups, are_below, has_room, pushed, numbered, group_in, added, groups_in, IsGroupsText, GroupsAreTexts};
ghost use Rattle.frame_records.specs.Seek.{is_open};

use crate::frame::Frame;
use crate::limits::{MOST_GROUP, MOST_GROUPS};
use crate::numbers::GroupNo;
use arrayvec::ArrayVec;
use page_ids::{NumberFault, cut, number_read};
use std::marker::Model;
use thiserror::Error;

/// Why a number is no further group of a list, in the order in which this is judged.
#[derive(Debug, Clone, Copy, PartialEq, Eq, Error)]
pub enum GroupFault {
    /// It isn't written as decimal digits without a leading zero.
    #[error("not a decimal number without leading zeros")]
    Number,
    /// It is 0 or above 65,535, or it is the 17th.
    #[error("no group's number, or one too many")]
    Range,
    /// It isn't greater than the one before.
    #[error("not greater than the number before")]
    Order,
}

/// Why a text lists no groups.
#[derive(Debug, Clone, Copy, PartialEq, Eq, Error)]
pub enum GroupsFault {
    /// I4: not 1 to 16 numbers from 1 to 65,535, strictly ascending and joined by commas.
    #[error("no list of groups")]
    BadGroups,
}

/// The closed user groups of a caller: at most 16, strictly ascending. Contracts see the list of their numbers.
#[derive(Debug, Drop)]
pub struct Groups {
    numbers: ArrayVec<u16, MOST_GROUPS>,
}

impl Model for Groups {
    ghost use Rattle.std.specs.Prelude.{List, ℕ};
    ghost use Rattle.frame_records.specs.Groups.{AreGroups};

    ghost Value = { List ℕ };

    ghost view = { λ g. g.numbers.items };

    ghost invariant = { λ g. AreGroups g.numbers.items };
}

impl Groups {
    /// Those of a caller outside every group.
    pub fn none() -> Groups
        ensures { result ≡ [] }
    {
        Groups {
            numbers: ArrayVec::new(),
        }
    }

    /// The groups of a text: numbers joined by commas, as `7,9`.
    ///
    /// Else I4, `BadGroups`; so of the empty text. Takes no memory.
    pub fn read(text: &str) -> Result<Groups, GroupsFault>
        ensures found { IfOk result (λ groups. IsGroupsText 44 text.now groups) }
        ensures only { IfErr result (λ _. (groups : List ℕ) → IsGroupsText 44 text.now groups → ⊥) }
    {
        match Groups::read_split(text.as_bytes(), b',') {
            Ok(groups) => Ok(groups),
            Err(_) => Err(GroupsFault::BadGroups),
        }
    }

    /// The groups of a text that is cut at each separator, or what is wrong with the first number that is refused.
    pub fn read_split(text: &[u8], separator: u8) -> Result<Groups, GroupFault>
        ensures { result ≡ groups_in separator text.now }
    {
        let mut groups = Groups::none();
        let mut rest = text;
        while let Some((word, after)) = cut(rest, separator) {
            groups.add(word)?;
            rest = after;
        }
        groups.add(rest)?;
        Ok(groups)
    }

    // All of these are smaller.
    fn are_below(&self, group: GroupNo) -> bool
        ensures { result ≡ are_below self.now group }
    {
        self.numbers.iter().all(|held| *held < group.get())
    }

    // The group of a number, after these.
    fn numbered(&self, number: u16) -> Result<GroupNo, GroupFault>
        ensures { result ≡ numbered self.now number }
    {
        if self.numbers.len() >= MOST_GROUPS {
            return Err(GroupFault::Range);
        }
        let group = GroupNo::new(number).ok_or(GroupFault::Range)?;
        if self.are_below(group) {
            Ok(group)
        } else {
            Err(GroupFault::Order)
        }
    }

    // The group of a word, after these.
    fn group_in(&self, word: &[u8]) -> Result<GroupNo, GroupFault>
        ensures { result ≡ group_in self.now word.now }
    {
        match number_read(word, MOST_GROUP as u32) {
            Ok(number) => self.numbered(number as u16),
            Err(NumberFault::NotNumeral) => Err(GroupFault::Number),
            Err(NumberFault::AboveLimit) => Err(GroupFault::Range),
        }
    }

    // The group of a word is put after these.
    fn add(&mut self, word: &[u8]) -> Result<(), GroupFault>
        ensures { MatchResult result (λ _. added self.old word.now ≡ Ok self.new) (λ e. added self.old word.now ≡
            Err e) }
    {
        let group = self.group_in(word)?;
        self.push(group);
        Ok(())
    }

    /// Puts a group after the others, if they are fewer than 16 and all smaller; else nothing changes.
    ///
    /// Whether it was put there. Takes no memory.
    pub fn push(&mut self, group: GroupNo) -> bool
        ensures answer { result ≡ has_room self.old group }
        ensures list { self.new ≡ pushed self.old group }
    {
        let fits = self.numbers.len() < MOST_GROUPS && self.are_below(group);
        if fits {
            self.numbers.push(group.get());
        }
        fits
    }

    /// The same groups once more. Takes no memory.
    pub fn copy(&self) -> Groups
        ensures { result ≡ self.now }
    {
        let held = self.numbers.as_slice();
        let mut numbers = ArrayVec::new();
        for number in held {
            numbers.push(*number);
        }
        Groups { numbers }
    }

    /// Whether a group is among them.
    pub fn has(&self, group: GroupNo) -> bool
        ensures { result ≡ list_any (λ held. held == group) self.now }
    {
        self.numbers.iter().any(|held| *held == group.get())
    }

    /// How many they are, at most 16.
    pub fn len(&self) -> usize
        ensures number { result ≡ length self.now }
        ensures valid { AreGroups self.now }
    {
        self.numbers.len()
    }

    /// The group at an index, from 0.
    pub fn at(&self, i: usize) -> GroupNo
        requires { i < length self.now }
        ensures { slice_get self.now i ≡ Some result }
    {
        GroupNo::of(self.numbers[i])
    }

    /// Whether these are the same groups.
    pub fn are_same(&self, other: &Groups) -> bool
        ensures { result ≡ bytes_eq self.now other.now }
    {
        self.numbers.as_slice() == other.numbers.as_slice()
    }
}

impl Frame {
    /// Whether the frame is open to a caller of these groups: it has no group, or one of the caller's.
    pub fn is_open(&self, groups: &Groups) -> bool
        ensures { result ≡ is_open groups.now self.now }
    {
        match self.group {
            None => true,
            Some(group) => groups.has(group),
        }
    }
}

/// Groups are read from their own texts alone, whatever separates their numbers, if it is no digit.
pub fn groups_are_texts()
    ensures { GroupsAreTexts }
{}
