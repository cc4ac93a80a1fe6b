//! The rule of the table, and the kinds of its steps.
ghost use Rattle.vx_front.specs.Rule.{Kept, first_view};
ghost use Rattle.vx_front.specs.Steps.{view_after_split, next_caller_view, note_of, joined_view, spent_view, is_read, is_look, is_publish, is_begin, is_open, is_close};

use crate::views::View;
use atomic_table::{Join, Play, Split, TableRule};
use std::marker::{Brand, PhantomData};

pub struct FrontRule;

impl TableRule<u64, View, ()> for FrontRule {
    ghost holds = { λ _. Kept };

    ghost first = { λ _. first_view };
}

pub struct NewCaller;

impl Split<View> for NewCaller {
    ghost left = { view_after_split };

    ghost right = { next_caller_view };
}

pub struct NewNote;

impl Split<View> for NewNote {
    ghost left = { λ v. v };

    ghost right = { note_of };
}

pub struct TakeIn;

impl Join<View> for TakeIn {
    ghost both = { joined_view };

    ghost spent = { spent_view };
}

pub struct Read;

impl Play<u64, View> for Read {
    ghost then = { is_read };
}

pub struct Look;

impl Play<u64, View> for Look {
    ghost then = { is_look };
}

pub struct Publish;

impl Play<u64, View> for Publish {
    ghost then = { is_publish };
}

pub struct Begin;

impl Play<u64, View> for Begin {
    ghost then = { is_begin };
}

/// Names an answered call, which only contracts see.
pub trait EntryName {
    ghost use Rattle.vx_front.specs.declared.views.Entry.{Entry};

    ghost entry: { Entry };
}

impl EntryName for Brand {
    ghost use Rattle.vx_front.specs.Views.{no_entry};

    ghost entry = { no_entry };
}

pub struct Open<E: EntryName>(PhantomData<E>);

impl<E: EntryName> Play<u64, View> for Open<E> {
    ghost then = { is_open E.entry };
}

pub struct Close<E: EntryName>(PhantomData<E>);

impl<E: EntryName> Play<u64, View> for Close<E> {
    ghost then = { is_close E.entry };
}
