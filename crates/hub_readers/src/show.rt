//! The hub's showcase.

ghost use Rattle.std.specs.Prelude.{◌≡◌, ◌+◌, ◌<◌, ◌≤◌, [], ◌++◌, length, drop, MatchResult, OnOk, OnErr};
ghost use Rattle.std.specs.List.{AllByRecursion};
ghost use mathlib.Core.List.{IsPrefix};
ghost use Rattle.log_history.specs.Entries.{new_log};
ghost use Rattle.store_layout.specs.Group.{last_place};
ghost use Rattle.store_layout.specs.Journal.{all_of};
ghost use Rattle.store_layout.specs.StoreValues.{value_after};
ghost use Rattle.store_open.specs.PathStores.{store_format};
ghost use Rattle.group_core.specs.Showing.{IsFrontOf};
ghost use Rattle.left_right.specs.Sides.{view};
ghost use Rattle.hub_readers.specs.Shown.{IsShownAfter, groups_with, commands_of};
ghost use Rattle.hub_readers.specs.Showcase.{IsHanded, AreNext, Publishes};

use crate::ghosts::name::ReaderName;
use crate::ghosts::rule::{GroupName, PublishesGroup, ReaderRule, SeenGroups};
use crate::look::Looks;
use crate::note::HubNote;
use crate::published::{Published, ShownCommand};
use core::mem::replace_with;
use group_core::{Showcase, ShowsRows};
use left_right::writer::Writer;
use log_history::LogHistory;
use logged_state::FrontsNote;
use path_db::{Command, PathDb};
use std::alloc::{AllocError, Global};
use std::marker::{Brand, Model};
use std::snapshot::Snapshot;
use std::sync::Wait;

/// The writer that publishes to a hub's readers.
pub(crate) type HubWriter<N> = Writer<Published, ShownCommand, SeenGroups, ReaderRule<N>>;

/// How many commands of the next group the history of what is shown has, and how many of them the
/// writer has. It has one fewer where memory was refused for the last one after it was noted.
#[derive(Clone, Copy)]
pub(crate) struct Progress {
    pub(crate) noted: usize,
    pub(crate) handed: usize,
}

const NOTHING: Progress = Progress {
    noted: 0,
    handed: 0,
};

/// Publishes committed groups to readers that wait for nobody. The hub ends the showcase, which is
/// not `Drop`.
///
/// Contracts see the groups that it has published, the rows and the place after them, and the
/// commands of the next group that it already has, since memory was refused for that group.
pub struct HubShow<N: ReaderName, R: Wait> {
    rt: R,
    alloc: Global,
    writer: HubWriter<N>,
    /// The history of what is shown.
    history: LogHistory,
    progress: Progress,
}

impl<N: ReaderName, R: Wait> Model for HubShow<N, R> {
    ghost use Rattle.std.specs.Prelude.{◌≡◌, length, drop};
    ghost use Rattle.left_right.specs.Sides.{view as seat_view};
    ghost use Rattle.store_layout.specs.Journal.{all_of};
    ghost use Rattle.hub_readers.specs.Shown.{IsShownAfter};
    ghost use Rattle.hub_readers.specs.Showcase.{beyond, IsHanded};
    ghost use Rattle.hub_readers.specs.Showing.{Showing};

    ghost Value = { Showing };

    ghost view = { λ h. record {
      groups = (seat_view h.writer.desk.place).groups;
      value = h.writer.desk.shown.value.value;
      owed = beyond (seat_view h.writer.desk.place).groups h.history;
    } };

    ghost invariant = { λ h.
        IsShownAfter N.opening N.shown h.writer.desk.shown.value (seat_view h.writer.desk.place).groups
        × (h.progress.noted ≡ length (beyond (seat_view h.writer.desk.place).groups h.history))
        × IsHanded N.shown (all_of (seat_view h.writer.desk.place).groups) (beyond (seat_view h.writer.desk.place).groups h.history) h.history (drop h.writer.behind h.writer.log.items) h.progress };
}

impl<N: ReaderName, R: Wait> Showcase for HubShow<N, R> {
    ghost use Rattle.std.specs.Prelude.{◌≡◌};
    ghost use Rattle.store_layout.specs.Journal.{all_of};

    type Note = HubNote<N>;

    ghost value = { λ s. s.value };

    ghost list = { λ s. all_of s.groups };

    ghost owed = { λ s. s.owed };

    ghost tells = { λ value note. note ≡ value.place };

    fn show(&mut self, group: &[Command]) -> Result<(), AllocError>
        requires room { self.old.value.place + length group.now ≤ last_place }
        requires next { IsFrontOf self.old.owed group.now }
        ensures shown { OnOk result (self.new.value ≡ value_after store_format self.old.value group.now) }
        ensures listed { OnOk result (all_of self.new.groups ≡ all_of self.old.groups ++ group.now) }
        ensures paid { OnOk result (self.new.owed ≡ []) }
        ensures same { OnErr result (self.new.value ≡ self.old.value) }
        ensures same_list { OnErr result (all_of self.new.groups ≡ all_of self.old.groups) }
        ensures owed { OnErr result (IsFrontOf self.new.owed group.now) }

        // The published list has the group as one more, or is unchanged.
        ensures groups { MatchResult result (λ _. self.new.groups ≡ groups_with self.old.groups group.now) (λ _. self.new.groups ≡ self.old.groups) }
    {
        if group.is_empty() {
            return Ok(());
        }
        let writer = &mut self.writer;
        self.progress = hand_over(self.alloc, writer, &mut self.history, self.progress, group);
        if self.progress.handed < group.len() {
            return Err(AllocError);
        }
        publish_in(&self.rt, &mut self.writer)?;
        self.progress = NOTHING;
        Ok(())
    }

    fn give_note(&mut self) -> HubNote<N>
        ensures same { self.new.value ≡ self.old.value }
        ensures same_list { all_of self.new.groups ≡ all_of self.old.groups }
        ensures owed { self.new.owed ≡ self.old.owed }
        ensures note { result ≡ self.old.value.place }
        ensures groups { self.new.groups ≡ self.old.groups }
    {
        HubNote::of(self.writer.published().place())
    }
}

impl<N: ReaderName, R: Wait> ShowsRows for HubShow<N, R> {
    fn rows(&self) -> &PathDb {
        self.writer.published().db()
    }
}

impl<N: ReaderName, R: Wait> HubShow<N, R> {
    /// Makes the showcase of this writer, which has published no group yet, with the history of
    /// what is shown.
    pub(crate) fn over(
        rt: R,
        alloc: Global,
        writer: HubWriter<N>,
        history: LogHistory,
    ) -> HubShow<N, R>
        requires shown { IsShownAfter N.opening N.shown writer.desk.shown.value [] }
        requires groups { (view writer.desk.place).groups ≡ [] }
        requires idle { drop writer.behind writer.log.items ≡ [] }
        requires history { history ≡ new_log N.shown }
        ensures value { result.value ≡ writer.desk.shown.value.value }
        ensures owed { result.owed ≡ [] }
        ensures groups { result.groups ≡ [] }
    {
        HubShow {
            rt,
            alloc,
            writer,
            history,
            progress: NOTHING,
        }
    }

    /// No looks yet.
    pub fn no_looks(&self) -> Looks<N>
        ensures { result ≡ [] }
    {
        Looks::none(self.history.past())
    }

    /// Ends the showcase, and returns what the looks were shown: fronts of all commands that the
    /// showcase was given. The call waits for readers that are within a lookup.
    pub fn close(self, looks: Looks<N>) -> FrontsNote
    where
        R: Drop,
        ensures note { result.value ≡ looks }
        ensures fronts { AllByRecursion (λ front. IsPrefix front (all_of self.groups ++ self.owed)) looks }
    {
        let HubShow {
            rt,
            alloc: _alloc,
            writer,
            mut history,
            progress: _progress,
        } = self;
        let (longest, fronts) = looks.into_parts();
        history.prove_past(&longest);
        writer.take(&rt);
        fronts
    }
}

/// Notes the commands of a group in the history, as far as it does not have them yet, and passes
/// copies of them to the writer, each with the past log after it. Returns how far that came, which
/// is less than all where memory is refused.
fn hand_over<N: ReaderName>(
    alloc: Global,
    writer: &mut HubWriter<N>,
    history: &mut LogHistory,
    from: Progress,
    group: &[Command],
) -> Progress
    requires { IsHanded N.shown (all_of (view writer.old.desk.place).groups) group.now history.old (drop writer.old.behind writer.old.log.items) from }
    ensures desk { writer.new.desk ≡ writer.old.desk }
    ensures handed { IsHanded N.shown (all_of (view writer.old.desk.place).groups) group.now history.new (drop writer.new.behind writer.new.log.items) result }
{
    let mut noted = from.noted;
    for index in from.handed..group.len() {
        let Ok(command) = group[index].try_clone(alloc) else {
            return Progress {
                noted,
                handed: index,
            };
        };
        if index == noted {
            history.accept(&Snapshot::of(&command));
            noted += 1;
        }
        let past = history.past();
        if writer.append(ShownCommand { command, past }).is_err() {
            return Progress {
                noted,
                handed: index,
            };
        }
    }
    Progress {
        noted,
        handed: group.len(),
    }
}

/// Publishes what the writer has as one group.
fn publish_in<N: ReaderName, R: Wait>(rt: &R, writer: &mut HubWriter<N>) -> Result<(), AllocError>
    requires shown { IsShownAfter N.opening N.shown writer.old.desk.shown.value (view writer.old.desk.place).groups }
    requires next { AreNext N.shown (view writer.old.desk.place).groups (drop writer.old.behind writer.old.log.items) }
    requires some { 0 < length (drop writer.old.behind writer.old.log.items) }
    ensures { Publishes N.opening N.shown result
        (drop writer.old.behind writer.old.log.items) writer.old.desk.shown.value (view writer.old.desk.place).groups
        (drop writer.new.behind writer.new.log.items) writer.new.desk.shown.value (view writer.new.desk.place).groups }
{
    replace_with(writer, rt, |writer, rt| publish(rt, writer))
}

/// Publishes what a writer has as one group, and returns the writer.
fn publish<N: ReaderName, R: Wait>(
    rt: &R,
    writer: HubWriter<N>,
) -> (HubWriter<N>, Result<(), AllocError>)
    requires shown { IsShownAfter N.opening N.shown writer.desk.shown.value (view writer.desk.place).groups }
    requires next { AreNext N.shown (view writer.desk.place).groups (drop writer.behind writer.log.items) }
    requires some { 0 < length (drop writer.behind writer.log.items) }
    ensures { Publishes N.opening N.shown result.1
        (drop writer.behind writer.log.items) writer.desk.shown.value (view writer.desk.place).groups
        (drop result.0.behind result.0.log.items) result.0.desk.shown.value (view result.0.desk.place).groups }
{
    publish_group::<N, Brand, R>(rt, writer)
}

/// `publish` for one name `G` of the group.
fn publish_group<N: ReaderName, G: GroupName, R: Wait>(
    rt: &R,
    writer: HubWriter<N>,
) -> (HubWriter<N>, Result<(), AllocError>)
    requires shown { IsShownAfter N.opening N.shown writer.desk.shown.value (view writer.desk.place).groups }
    requires next { AreNext N.shown (view writer.desk.place).groups (drop writer.behind writer.log.items) }
    requires some { 0 < length (drop writer.behind writer.log.items) }
    requires group { commands_of (drop writer.behind writer.log.items) ≡ G.group }
    ensures { Publishes N.opening N.shown result.1
        (drop writer.behind writer.log.items) writer.desk.shown.value (view writer.desk.place).groups
        (drop result.0.behind result.0.log.items) result.0.desk.shown.value (view result.0.desk.place).groups }
{
    writer.publish_as::<PublishesGroup<G>, R>(rt)
}
