//! A state at work, with the tickets that it gave and the values that its actors hold.

use crate::stores::{Contents, assert_contents, contents_at};
use group_core::{
    BeginError, Closing, Durable, DurableFollowed, FollowError, Followed, Following, Laid, Live,
    Opened, PlainShow, Plan, PublishError, Redeemed, Stable, StageError, Staged, State, StepError,
    SubmitError, Switched, Ticket, Written,
};
use path_db::{Command, Outcome};
use sector_dev::Device;
use std::alloc::Global;
use store_open::Store;
use test_support::{TestHost, assert_same, assert_true};

/// The most tickets that are held.
const MOST_TICKETS: usize = 600;

/// What the flusher holds.
pub enum Group {
    Nothing,
    Staged(Staged),
    Written(Written),
    Stable(Stable),
    Opened(Opened),
    Durable(Durable),
    Following(Following),
    Followed(Followed),
    DurableFollowed(DurableFollowed),
}

/// What the checkpointer holds.
pub enum Round {
    Nothing,
    Plan(Plan),
    Laid(Laid),
    Switched(Switched),
    Live(Live),
    Closing(Closing),
}

/// What a step was answered.
#[derive(Clone, Copy, Debug, PartialEq, Eq)]
pub enum Told {
    /// It was made.
    Done,
    /// It was the last one of its group or checkpoint.
    Ended,
    /// Nothing was staged, followed, or begun.
    Stage(StageError),
    Follow(FollowError),
    Begin(BeginError),
    /// It was refused.
    Fault,
    Stopped,
    Damaged,
    NoMemory,
}

/// What a ticket was redeemed for, with its place.
#[derive(Clone, Copy, Debug, PartialEq, Eq)]
pub enum Paid {
    Committed(u64, Outcome),
    Waiting(u64),
    Unknown(u64),
}

/// A state, the tickets that are not redeemed, and what its actors hold.
pub struct Work<D: Device> {
    pub state: State<D, PlainShow>,
    pub tickets: Vec<Ticket>,
    pub group: Group,
    pub round: Round,
}

/// A state of a store, of this home. Where memory is refused for a copy of the rows, it is asked
/// for once more.
pub fn state_of<D: Device>(
    rt: &impl TestHost,
    alloc: Global,
    store: Store<D>,
    home: u64,
) -> State<D, PlainShow> {
    let copy = match store.db().try_clone() {
        Err(_) => store.db().try_clone(),
        copied => copied,
    };
    let Ok(db) = copy else {
        rt.fail("out of memory");
    };
    let show = PlainShow::new(db, store.place());
    State::new(alloc, store, show, home)
}

/// A state of a store, of home 1, at work.
pub fn work_of<D: Device>(rt: &impl TestHost, alloc: Global, store: Store<D>) -> Work<D> {
    Work {
        state: state_of(rt, alloc, store, 1),
        tickets: room_for_tickets(rt, alloc),
        group: Group::Nothing,
        round: Round::Nothing,
    }
}

/// A list with room for the tickets. Where memory is refused, it is asked for once more.
fn room_for_tickets(rt: &impl TestHost, alloc: Global) -> Vec<Ticket> {
    let room = match Vec::with_capacity(alloc, MOST_TICKETS) {
        Err(_) => Vec::with_capacity(alloc, MOST_TICKETS),
        given => given,
    };
    match room {
        Ok(tickets) => tickets,
        Err(_) => rt.fail("out of memory"),
    }
}

impl<D: Device> Work<D> {
    /// Submits a command, and holds its ticket: its place.
    pub fn submit(&mut self, rt: &impl TestHost, command: Command) -> Result<u64, SubmitError> {
        match self.state.submit(command) {
            Ok(ticket) => {
                let place = ticket.place();
                if let Err(_ticket) = self.tickets.push(ticket) {
                    rt.fail("out of memory");
                }
                Ok(place)
            }
            Err((_command, refusal)) => Err(refusal),
        }
    }

    /// Submits a command, which is answered so.
    pub fn submits(
        &mut self,
        rt: &impl TestHost,
        command: Command,
        wanted: Result<u64, SubmitError>,
    ) {
        let answer = self.submit(rt, command);
        assert_same(rt, &answer, &wanted, &"a command");
    }

    /// Submits this number of purges of what expires at moment 0, each of which is accepted.
    pub fn purge(&mut self, rt: &impl TestHost, times: usize) {
        for _each in 0..times {
            let answer = self.submit(rt, Command::Purge(0));
            assert_true(rt, answer.is_ok(), "a purge is accepted");
        }
    }

    /// Redeems the ticket that is held at an index; a ticket that is waiting is held there again.
    pub fn redeem(&mut self, rt: &impl TestHost, index: usize) -> Paid {
        assert_true(rt, index < self.tickets.len(), "a ticket is held there");
        let ticket = self.tickets.remove(index);
        match self.state.redeem(ticket) {
            Redeemed::Committed(mut receipt) => {
                assert_true(rt, receipt.take_note().is_some(), "a receipt has a note");
                Paid::Committed(receipt.place(), receipt.outcome())
            }
            Redeemed::Unknown(place) => Paid::Unknown(place),
            Redeemed::Stranger(_ticket) => rt.fail("a stranger"),
            Redeemed::Waiting(ticket) => {
                let place = ticket.place();
                assert_true(rt, index <= self.tickets.len(), "the tickets reach there");
                if let Err(_ticket) = self.tickets.insert(index, ticket) {
                    rt.fail("out of memory");
                }
                Paid::Waiting(place)
            }
        }
    }

    /// Redeems the ticket that is held at an index, for this.
    pub fn redeems(&mut self, rt: &impl TestHost, index: usize, wanted: Paid) {
        let paid = self.redeem(rt, index);
        assert_same(rt, &paid, &wanted, &"tickets");
    }

    /// Redeems the oldest ticket, whose command is committed at this place.
    pub fn redeems_at(&mut self, rt: &impl TestHost, place: u64) {
        let paid = self.redeem(rt, 0);
        let is_so = matches!(paid, Paid::Committed(at, _) if at == place);
        assert_same(rt, &is_so, &true, &place);
    }

    /// Redeems the oldest ticket as long as it is committed, which this number of tickets are.
    pub fn redeems_all(&mut self, rt: &impl TestHost, wanted: u64) {
        let paid = self.redeem_all(rt);
        assert_same(rt, &paid, &wanted, &"tickets");
    }

    /// Redeems the oldest ticket as long as it is committed; how many are.
    pub fn redeem_all(&mut self, rt: &impl TestHost) -> u64 {
        let mut paid = 0u64;
        for _each in 0..MOST_TICKETS {
            if self.tickets.is_empty() {
                break;
            }
            let Paid::Committed(_, _) = self.redeem(rt, 0) else {
                break;
            };
            paid = paid.saturating_add(1);
        }
        paid
    }

    /// The flusher's next step.
    pub fn flush(self, rt: &impl TestHost) -> (Work<D>, Told) {
        let Work {
            mut state,
            tickets,
            group,
            round,
        } = self;
        let (group, told) = flush_step(rt, &mut state, group);
        let work = Work {
            state,
            tickets,
            group,
            round,
        };
        (work, told)
    }

    /// Stages a group to follow the group in flight, whose gate was written. Where no group
    /// follows, the value is held as before.
    pub fn follow(self, rt: &impl TestHost) -> (Work<D>, Told) {
        let Work {
            mut state,
            tickets,
            group,
            round,
        } = self;
        let (group, told) = follow_step(rt, &mut state, group);
        let work = Work {
            state,
            tickets,
            group,
            round,
        };
        (work, told)
    }

    /// Stages a group to follow the group in flight, which is answered so.
    pub fn follows(self, rt: &impl TestHost, wanted: Told) -> Work<D> {
        let (work, told) = self.follow(rt);
        assert_told(rt, told, wanted);
        work
    }

    /// The checkpointer's next step.
    pub fn check(self, rt: &impl TestHost) -> (Work<D>, Told) {
        let Work {
            mut state,
            tickets,
            group,
            round,
        } = self;
        let (round, told) = check_step(rt, &mut state, round);
        let work = Work {
            state,
            tickets,
            group,
            round,
        };
        (work, told)
    }

    /// The flusher's steps until a group or a seal is published, or until one is refused.
    pub fn flush_group(self, rt: &impl TestHost) -> (Work<D>, Told) {
        let mut work = self;
        let mut told = Told::Done;
        for _step in 0..6 {
            if matches!(told, Told::Done) {
                (work, told) = work.flush(rt);
            }
        }
        (work, told)
    }

    /// The checkpointer's steps until a checkpoint has ended, or until one is refused.
    pub fn check_all(self, rt: &impl TestHost) -> (Work<D>, Told) {
        let mut work = self;
        let mut told = Told::Done;
        for _step in 0..7 {
            if matches!(told, Told::Done) {
                (work, told) = work.check(rt);
            }
        }
        (work, told)
    }

    /// The flusher's next step, which is answered so.
    pub fn flushes(self, rt: &impl TestHost, wanted: Told) -> Work<D> {
        let (work, told) = self.flush(rt);
        assert_told(rt, told, wanted);
        work
    }

    /// The checkpointer's next step, which is answered so.
    pub fn checks(self, rt: &impl TestHost, wanted: Told) -> Work<D> {
        let (work, told) = self.check(rt);
        assert_told(rt, told, wanted);
        work
    }

    /// The flusher's steps until a group or a seal is published, which none refuses.
    pub fn flushes_group(self, rt: &impl TestHost) -> Work<D> {
        let (work, told) = self.flush_group(rt);
        assert_told(rt, told, Told::Ended);
        work
    }

    /// The checkpointer's steps until a checkpoint has ended, which none refuses.
    pub fn checks_all(self, rt: &impl TestHost) -> Work<D> {
        let (work, told) = self.check_all(rt);
        assert_told(rt, told, Told::Ended);
        work
    }

    /// Hands the device out, where no ticket is left and no value is out.
    pub fn device(self, rt: &impl TestHost) -> D {
        match self.at_rest(rt).into_device() {
            Ok(device) => device,
            Err(_state) => rt.fail("an outcome is kept"),
        }
    }

    /// The state, where no ticket is left and no value is out.
    pub fn at_rest(self, rt: &impl TestHost) -> State<D, PlainShow> {
        let Work {
            state,
            tickets,
            group: Group::Nothing,
            round: Round::Nothing,
        } = self
        else {
            rt.fail("a value is out");
        };
        assert_true(rt, tickets.is_empty(), "no ticket is left");
        tickets.destroy_empty();
        state
    }

    /// Stops the state, redeems all tickets and spends all values: the device, and what is shown.
    pub fn end(self, rt: &impl TestHost) -> (D, Contents) {
        let mut work = self;
        work.state.halt();
        for _each in 0..MOST_TICKETS {
            if !work.tickets.is_empty() {
                let _paid = work.redeem(rt, 0);
            }
        }
        let (work, _told) = work.flush_group(rt);
        let (work, _told) = work.check_all(rt);
        let Work {
            state,
            tickets,
            group: Group::Nothing,
            round: Round::Nothing,
        } = work
        else {
            rt.fail("a value is out");
        };
        assert_true(rt, tickets.is_empty(), "no ticket is left");
        tickets.destroy_empty();
        let (device, show) = state.into_parts();
        (device, contents_at(show.db(), show.place()))
    }
}

impl<D: Device> Work<D> {
    /// Stops the state as `end` does, which shows this: the device.
    pub fn ends(self, rt: &impl TestHost, wanted: Contents) -> D {
        let (device, contents) = self.end(rt);
        assert_contents(rt, contents, wanted);
        device
    }
}

/// Sees what a step was answered.
pub fn assert_told(rt: &impl TestHost, told: Told, wanted: Told) {
    assert_same(rt, &told, &wanted, &"a step");
}

/// Sees that a state has stopped, of which no ticket is left and no value is out: its device.
pub fn assert_stopped<D: Device>(rt: &impl TestHost, work: Work<D>) -> D {
    let mut work = work;
    assert_true(rt, work.state.is_free(), "the state is free");
    work.submits(rt, Command::Purge(0), Err(SubmitError::Stopped));
    work.flushes(rt, Told::Stage(StageError::Stopped))
        .checks(rt, Told::Begin(BeginError::Stopped))
        .device(rt)
}

/// Stages a group to follow the group in flight, whose gate was written.
fn follow_step<D: Device>(
    rt: &impl TestHost,
    state: &mut State<D, PlainShow>,
    group: Group,
) -> (Group, Told) {
    match group {
        Group::Opened(value) => match state.follow(value) {
            Ok(value) => (Group::Following(value), Told::Done),
            Err((value, refused)) => (Group::Opened(value), Told::Follow(refused)),
        },
        _other => rt.fail("no gate was written"),
    }
}

/// A step of the flusher with what it holds.
fn flush_step<D: Device>(
    rt: &impl TestHost,
    state: &mut State<D, PlainShow>,
    group: Group,
) -> (Group, Told) {
    let next = match group {
        Group::Nothing => match state.stage() {
            Ok(value) => Ok(Group::Staged(value)),
            Err(e) => Err(Told::Stage(e)),
        },
        Group::Staged(value) => match state.write_group(value) {
            Ok(value) => Ok(Group::Written(value)),
            Err(e) => Err(refused(rt, e)),
        },
        Group::Written(value) => match state.sync_group(value) {
            Ok(value) => Ok(Group::Stable(value)),
            Err(e) => Err(refused(rt, e)),
        },
        Group::Stable(value) => match state.open_gate(value) {
            Ok(value) => Ok(Group::Opened(value)),
            Err(e) => Err(refused(rt, e)),
        },
        Group::Opened(value) => match state.sync_gate(value) {
            Ok(value) => Ok(Group::Durable(value)),
            Err(e) => Err(refused(rt, e)),
        },
        Group::Durable(value) => match state.publish(value) {
            Ok(()) => Err(Told::Ended),
            Err(PublishError::NoMemory(value)) => return (Group::Durable(value), Told::NoMemory),
            Err(PublishError::Stranger(_value)) => rt.fail("a stranger"),
        },
        Group::Following(value) => match state.write_following(value) {
            Ok(value) => Ok(Group::Followed(value)),
            Err(e) => Err(refused(rt, e)),
        },
        Group::Followed(value) => match state.sync_followed(value) {
            Ok(value) => Ok(Group::DurableFollowed(value)),
            Err(e) => Err(refused(rt, e)),
        },
        Group::DurableFollowed(value) => match state.publish_followed(value) {
            Ok(value) => Ok(Group::Stable(value)),
            Err(PublishError::NoMemory(value)) => {
                return (Group::DurableFollowed(value), Told::NoMemory);
            }
            Err(PublishError::Stranger(_value)) => rt.fail("a stranger"),
        },
    };
    match next {
        Ok(group) => (group, Told::Done),
        Err(told) => (Group::Nothing, told),
    }
}

/// A step of the checkpointer with what it holds.
fn check_step<D: Device>(
    rt: &impl TestHost,
    state: &mut State<D, PlainShow>,
    round: Round,
) -> (Round, Told) {
    let next = match round {
        Round::Nothing => match state.begin() {
            Ok(value) => Ok(Round::Plan(value)),
            Err(e) => Err(Told::Begin(e)),
        },
        Round::Plan(value) => {
            if value.is_done() {
                match state.sync_chunks(value) {
                    Ok(value) => Ok(Round::Laid(value)),
                    Err(e) => Err(refused(rt, e)),
                }
            } else {
                match state.write_chunk(value) {
                    Ok(value) => Ok(Round::Plan(value)),
                    Err(e) => Err(refused(rt, e)),
                }
            }
        }
        Round::Laid(value) => match state.open_half(value) {
            Ok(value) => Ok(Round::Switched(value)),
            Err(e) => Err(refused(rt, e)),
        },
        Round::Switched(value) => match state.sync_half(value) {
            Ok(value) => Ok(Round::Live(value)),
            Err(e) => Err(refused(rt, e)),
        },
        Round::Live(value) => match state.close_half(value) {
            Ok(value) => Ok(Round::Closing(value)),
            Err(e) => Err(refused(rt, e)),
        },
        Round::Closing(value) => match state.sync_close(value) {
            Ok(()) => Err(Told::Ended),
            Err(e) => Err(refused(rt, e)),
        },
    };
    match next {
        Ok(round) => (round, Told::Done),
        Err(told) => (Round::Nothing, told),
    }
}

/// What a step was answered that spent its value. A value that comes back ends the test.
fn refused<P>(rt: &impl TestHost, refusal: StepError<P>) -> Told {
    match refusal {
        StepError::Fault => Told::Fault,
        StepError::Stopped => Told::Stopped,
        StepError::Damaged => Told::Damaged,
        StepError::Stranger(_value) => rt.fail("a stranger"),
        StepError::NoMemory(_value) => rt.fail("out of memory"),
    }
}
