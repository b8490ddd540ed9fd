//! Steps of the machine (JVMS 2.11).

ghost use Rattle.std.specs.Prelude.{◌≡◌, ◌≤◌, ◌<◌, ◌+◌, ◌^◌, length, OnErr, IfOk};
ghost use Rattle.op_table.specs.Actions.{action_of};
ghost use Rattle.class_hierarchy.specs.World.{World as Classes};
ghost use Rattle.cost_model.specs.Costs.{cost_at};
ghost use Rattle.frames.specs.Outcome.{HasGone};
ghost use Rattle.frames.specs.Standing.{IsFetched, StandsAt, next_pc, standing_at};
ghost use Rattle.word_steps.specs.Branches.{jumps};
ghost use Rattle.word_steps.specs.Computing.{made, words_after};
ghost use Rattle.object_steps.specs.After.{does};
ghost use Rattle.object_steps.specs.Arrays.{array_after};
ghost use Rattle.object_steps.specs.Casts.{cast_after};
ghost use Rattle.object_steps.specs.Fields.{field_after};
ghost use Rattle.object_steps.specs.Objects as objects;
ghost use Rattle.steps.specs.declared.configuration.Status.TheVariants as statuses;
ghost use Rattle.steps.specs.Calling as calls;
ghost use Rattle.steps.specs.Step.{acts_behind, acts_on, kind_of, leave, outcome_of, settle, step_of, weight_of};
ghost use Rattle.steps.specs.inside.Stepping.{ended_at, entered_by, failed_by, gone_to, left_by};

use crate::calling::{Entered, call};
use crate::halt::Halt;
use crate::returning::{Back, back_of, resume, return_nothing, return_value, throw_top};
use crate::{Event, State, Status, Thrown};
use cost_model::{CostFunction, CostModel};
use frames::{Failure, Fetched, Going, Here, Raised, Stop, Value};
use object_steps::{new_object, on_arrays, on_fields, on_references};
use op_table::action_of;
use op_table::acts::{Action, Call};
use std::alloc::{AllocError, Global};
use word_steps::{go_on, jump};
use world::World;

// Does an instruction that changes words alone. An `Err` changes nothing.
fn change_words(fetched: &Fetched<'_>, action: Action, here: &mut Here) -> Result<Going, AllocError>
    requires { fetched.now.next ≡ here.old.frame.pc + fetched.now.standing.instr.len }
    ensures gone { IfOk result (λ going. HasGone going here.old here.new
        (made fetched.now.standing here.old (words_after fetched.now.standing.class.pool action here.old.frame.locals here.old.frame.stack))) }
    ensures err { OnErr result (here.new ≡ here.old) }
{
    go_on(
        &fetched.class.pool,
        action,
        fetched.code,
        fetched.next,
        &mut here.frame,
    )
}

// What an instruction costs.
fn cost_of<F: CostFunction>(model: &CostModel<F>, fetched: &Fetched<'_>) -> u64
    ensures value { result ≡ cost_at model.now fetched.now.standing.instr.op }
    ensures bound { result ≤ 1000000 }
{
    model.charge_instr(&fetched.instr)
}

// What kind of exception it is.
fn kind_of(raised: Raised) -> Thrown
    ensures { result ≡ kind_of raised }
{
    match raised {
        Raised::NullPointer => Thrown::NullPointer,
        Raised::ArrayIndex => Thrown::ArrayIndex,
        Raised::NegativeSize => Thrown::NegativeSize,
        Raised::ArrayStore => Thrown::ArrayStore,
        Raised::ClassCast => Thrown::ClassCast,
        Raised::Arithmetic => Thrown::Arithmetic,
        Raised::Given(_) => Thrown::Given,
    }
}

impl State {
    // Adds the cost of an instruction that was made.
    fn charge(&mut self, cost: u64)
        requires { self.old.spent ≤ 2 ^ 127 }
        ensures { self.new ≡ record self.old { spent = self.old.spent + cost } }
    {
        self.spent += u128::from(cost);
    }

    // The run ends by what is thrown, or stops.
    fn fail(&mut self, failure: Failure, cost: u64) -> Event
        requires { self.old.spent ≤ 2 ^ 127 }
        ensures { failed_by failure cost self.old ≡ (result, self.new) }
    {
        match failure {
            Failure::Throws(raised) => {
                let thrown = kind_of(raised);
                self.charge(cost);
                self.status = Status::Thrown(thrown);
                Event::Thrown(thrown)
            }
            Failure::Stops(stop) => {
                self.status = Status::Stopped(stop);
                Event::Stopped(stop)
            }
        }
    }

    // The instruction was made in its frame, or failed.
    fn go(&mut self, going: Going, cost: u64) -> Event
        requires spent { self.old.spent ≤ 2 ^ 127 }
        requires runs { self.old.status ≡ statuses.Running }
        ensures { gone_to going cost self.old ≡ (result, self.new) }
    {
        match going {
            Going::Goes => {
                self.charge(cost);
                Event::Went
            }
            Going::Wraps => {
                self.charge(cost);
                Event::Wrapped
            }
            Going::Fails(failure) => self.fail(failure, cost),
        }
    }

    // The first method has returned.
    fn end(&mut self, cost: u64) -> Event
        requires { self.old.spent ≤ 2 ^ 127 }
        ensures { ended_at cost self.old ≡ (result, self.new) }
    {
        self.charge(cost);
        self.status = Status::Ended;
        Event::Ended
    }

    // The frame is left with a result. An `Err` changes nothing.

    fn leave(&mut self, world: &World, value: Option<Value>, cost: u64) -> Result<Event, AllocError>
        requires spent { self.old.spent ≤ 2 ^ 127 }
        requires runs { self.old.status ≡ statuses.Running }
        ensures left { IfOk result (λ event. leave world.now cost self.old value self.old.callers ≡ (event, self.new)) }
        ensures err { OnErr result (self.new ≡ self.old) }
    {
        match back_of(world, value, &self.callers) {
            Back::Ends => Ok(self.end(cost)),
            Back::Misfits => Ok(self.fail(Failure::Stops(Stop::Shape), cost)),
            Back::Resumes(next) => {
                resume(value, next, &mut self.callers, &mut self.here.frame)?;
                self.charge(cost);
                Ok(Event::Went)
            }
        }
    }

    // Another frame is entered, and the running one waits. An `Err` changes nothing.
    fn enter(&mut self, entered: Entered, cost: u64) -> Result<Event, AllocError>
        requires spent { self.old.spent ≤ 2 ^ 127 }
        requires runs { self.old.status ≡ statuses.Running }
        requires words { entered.words ≤ length self.old.here.frame.stack }
        ensures entered { IfOk result (λ event. entered_by entered cost self.old ≡ (event, self.new)) }
        ensures err { OnErr result (self.new ≡ self.old) }
    {
        self.callers.push(entered.frame)?;
        self.here.frame.stack.cut(entered.words);
        self.callers.swap_top(&mut self.here.frame);
        self.charge(cost);
        Ok(Event::Went)
    }

    // A frame is left, or the return fails. An `Err` changes nothing.
    fn give_back(
        &mut self,
        world: &World,
        left: Result<Option<Value>, Failure>,
        cost: u64,
    ) -> Result<Event, AllocError>
        requires spent { self.old.spent ≤ 2 ^ 127 }
        requires runs { self.old.status ≡ statuses.Running }
        ensures left { IfOk result (λ event. settle world.now cost self.old (left_by left) ≡ (event, self.new)) }
        ensures err { OnErr result (self.new ≡ self.old) }
    {
        match left {
            Ok(value) => self.leave(world, value, cost),
            Err(failure) => Ok(self.fail(failure, cost)),
        }
    }

    // Calls the method of a member reference. An `Err` changes nothing.

    fn call(
        &mut self,
        alloc: Global,
        world: &World,
        fetched: &Fetched<'_>,
        kind: Call,
        index: u16,
        cost: u64,
    ) -> Result<Event, AllocError>
        requires spent { self.old.spent ≤ 2 ^ 127 }
        requires runs { self.old.status ≡ statuses.Running }
        requires fetched { IsFetched world.now fetched.now self.old.here }
        ensures called { IfOk result (λ event. settle world.now cost self.old (calls.call world.now fetched.now.standing self.old.here kind index) ≡ (event, self.new)) }
        ensures err { OnErr result (self.new ≡ self.old) }
    {
        match call(alloc, world, fetched, &self.here, kind, index) {
            Ok(entered) => self.enter(entered, cost),
            Err(Halt::Fails(failure)) => Ok(self.fail(failure, cost)),
            Err(Halt::Memory) => Err(AllocError),
        }
    }

    // Makes an object of the class with this index. An `Err` changes nothing.

    fn create(
        &mut self,
        alloc: Global,
        world: &World,
        fetched: &Fetched<'_>,
        index: u16,
        cost: u64,
    ) -> Result<Event, AllocError>
        requires spent { self.old.spent ≤ 2 ^ 127 }
        requires few { length self.old.here.heap < 2 ^ 32 }
        requires runs { self.old.status ≡ statuses.Running }
        requires fetched { IsFetched world.now fetched.now self.old.here }
        ensures created { IfOk result (λ event. settle world.now cost self.old (objects.new_object world.now fetched.now.standing self.old.here index) ≡ (event, self.new)) }
        ensures err { OnErr result (self.new ≡ self.old) }
    {
        let going = new_object(alloc, world, fetched, index, &mut self.here)?;
        Ok(self.go(going, cost))
    }

    // Does an instruction that changes words alone. An `Err` changes nothing.

    fn compute(
        &mut self,
        world: &World,
        fetched: &Fetched<'_>,
        action: Action,
        cost: u64,
    ) -> Result<Event, AllocError>
        requires spent { self.old.spent ≤ 2 ^ 127 }
        requires runs { self.old.status ≡ statuses.Running }
        requires fetched { IsFetched world.now fetched.now self.old.here }
        ensures computed { IfOk result (λ event. settle world.now cost self.old
            (made fetched.now.standing self.old.here (words_after fetched.now.standing.class.pool action self.old.here.frame.locals self.old.here.frame.stack)) ≡ (event, self.new)) }
        ensures err { OnErr result (self.new ≡ self.old) }
    {
        let going = change_words(fetched, action, &mut self.here)?;
        Ok(self.go(going, cost))
    }

    // Jumps as an if, a goto or a switch says.
    fn branch(&mut self, fetched: &Fetched<'_>, action: Action, cost: u64) -> Event
        requires spent { self.old.spent ≤ 2 ^ 127 }
        requires runs { self.old.status ≡ statuses.Running }
        requires acts { action ≡ action_of fetched.now.standing.instr }
        requires behind { fetched.now.next ≡ next_pc fetched.now.standing self.old.here }
        requires stands { StandsAt fetched.now.standing self.old.here.frame.pc }
        ensures { (w : Classes) → settle w cost self.old (jumps fetched.now.standing self.old.here action) ≡ (result, self.new) }
    {
        let going = jump(fetched, action, &mut self.here);
        self.go(going, cost)
    }

    // Does an instruction on arrays. An `Err` changes nothing.
    fn change_arrays(
        &mut self,
        alloc: Global,
        world: &World,
        fetched: &Fetched<'_>,
        action: Action,
        cost: u64,
    ) -> Result<Event, AllocError>
        requires spent { self.old.spent ≤ 2 ^ 127 }
        requires few { length self.old.here.heap < 2 ^ 32 }
        requires runs { self.old.status ≡ statuses.Running }
        requires fetched { IsFetched world.now fetched.now self.old.here }
        ensures done { IfOk result (λ event. settle world.now cost self.old
            (does fetched.now.standing self.old.here (array_after world.now fetched.now.standing self.old.here action)) ≡ (event, self.new)) }
        ensures err { OnErr result (self.new ≡ self.old) }
    {
        let going = on_arrays(alloc, world, fetched, action, &mut self.here)?;
        Ok(self.go(going, cost))
    }

    // Does an instruction on fields, static ones too. An `Err` changes nothing.
    fn change_fields(
        &mut self,
        alloc: Global,
        world: &World,
        fetched: &Fetched<'_>,
        action: Action,
        cost: u64,
    ) -> Result<Event, AllocError>
        requires spent { self.old.spent ≤ 2 ^ 127 }
        requires runs { self.old.status ≡ statuses.Running }
        requires fetched { IsFetched world.now fetched.now self.old.here }
        ensures done { IfOk result (λ event. settle world.now cost self.old
            (does fetched.now.standing self.old.here (field_after world.now fetched.now.standing self.old.here action)) ≡ (event, self.new)) }
        ensures err { OnErr result (self.new ≡ self.old) }
    {
        let going = on_fields(alloc, world, fetched, action, &mut self.here)?;
        Ok(self.go(going, cost))
    }

    // Does an instruction that asks what a reference is an instance of. An `Err` changes nothing.
    fn ask_references(
        &mut self,
        world: &World,
        fetched: &Fetched<'_>,
        action: Action,
        cost: u64,
    ) -> Result<Event, AllocError>
        requires spent { self.old.spent ≤ 2 ^ 127 }
        requires runs { self.old.status ≡ statuses.Running }
        requires fetched { IsFetched world.now fetched.now self.old.here }
        ensures done { IfOk result (λ event. settle world.now cost self.old
            (does fetched.now.standing self.old.here (cast_after world.now fetched.now.standing self.old.here action)) ≡ (event, self.new)) }
        ensures err { OnErr result (self.new ≡ self.old) }
    {
        let going = on_references(world, fetched, action, &mut self.here)?;
        Ok(self.go(going, cost))
    }

    // Does an instruction behind which the code goes on. An `Err` changes nothing.
    fn act_behind(
        &mut self,
        alloc: Global,
        world: &World,
        fetched: &Fetched<'_>,
        action: Action,
        cost: u64,
    ) -> Result<Event, AllocError>
        requires spent { self.old.spent ≤ 2 ^ 127 }
        requires few { length self.old.here.heap < 2 ^ 32 }
        requires runs { self.old.status ≡ statuses.Running }
        requires fetched { IsFetched world.now fetched.now self.old.here }
        ensures acted { IfOk result (λ event. settle world.now cost self.old (acts_behind world.now fetched.now.standing self.old.here action) ≡ (event, self.new)) }
        ensures err { OnErr result (self.new ≡ self.old) }
    {
        match action {
            Action::LoadElement(_)
            | Action::StoreElement(_)
            | Action::ArrayLength
            | Action::NewArray(_)
            | Action::NewReferenceArray(_) => self.change_arrays(
                alloc, world, fetched, action, cost,
            ),
            Action::GetField(_)
            | Action::PutField(_)
            | Action::GetStatic(_)
            | Action::PutStatic(_) => self.change_fields(alloc, world, fetched, action, cost),
            Action::CheckCast(_) | Action::InstanceOf(_) => {
                self.ask_references(world, fetched, action, cost)
            }
            _ => self.compute(world, fetched, action, cost),
        }
    }

    // Does what the instruction says. An `Err` changes nothing.
    fn act(
        &mut self,
        alloc: Global,
        world: &World,
        fetched: &Fetched<'_>,
        cost: u64,
    ) -> Result<Event, AllocError>
        requires spent { self.old.spent ≤ 2 ^ 127 }
        requires few { length self.old.here.heap < 2 ^ 32 }
        requires runs { self.old.status ≡ statuses.Running }
        requires fetched { IsFetched world.now fetched.now self.old.here }
        ensures acted { IfOk result (λ event. settle world.now cost self.old (acts_on world.now fetched.now.standing self.old.here (action_of fetched.now.standing.instr)) ≡ (event, self.new)) }
        ensures err { OnErr result (self.new ≡ self.old) }
    {
        match action_of(&fetched.instr) {
            Action::Call(kind, index) => self.call(alloc, world, fetched, kind, index, cost),
            Action::New(index) => self.create(alloc, world, fetched, index, cost),
            Action::Return(kind) => {
                let left = return_value(world, fetched, &self.here, kind);
                self.give_back(world, left, cost)
            }
            Action::ReturnNothing => {
                let left = return_nothing(fetched);
                self.give_back(world, left, cost)
            }
            Action::Throw => {
                let failure = throw_top(&self.here);
                Ok(self.fail(failure, cost))
            }
            action @ (Action::IfZero(..)
            | Action::IfInts(..)
            | Action::IfSame(..)
            | Action::IfNull(..)
            | Action::Goto(_)
            | Action::Switch { .. }) => Ok(self.branch(fetched, action, cost)),
            action => self.act_behind(alloc, world, fetched, action, cost),
        }
    }

    // Makes a step where the run goes on. An `Err` changes nothing.
    #[tactic(auto, unfolding(crate::specs::Step::outcome_of))]
    fn advance<F: CostFunction>(
        &mut self,
        alloc: Global,
        world: &World,
        model: &CostModel<F>,
    ) -> Result<Event, AllocError>
        requires spent { self.old.spent ≤ 2 ^ 127 }
        requires few { length self.old.here.heap < 2 ^ 32 }
        requires runs { self.old.status ≡ statuses.Running }
        ensures advanced { IfOk result (λ event. settle world.now
            (weight_of (λ op. cost_at model.now op) (standing_at world.now self.old.here.frame)) self.old (outcome_of world.now self.old.here) ≡ (event, self.new)) }
        ensures err { OnErr result (self.new ≡ self.old) }
        ensures heap { length self.new.here.heap ≤ length self.old.here.heap + 1 }
        ensures spent { self.new.spent ≤ self.old.spent + 1000000 }
    {
        match Fetched::of(world, &self.here.frame) {
            Some(fetched) => {
                let cost = cost_of(model, &fetched);
                self.act(alloc, world, &fetched, cost)
            }
            None => Ok(self.fail(Failure::Stops(Stop::Support), 0)),
        }
    }

    /// Makes one step, and answers what it was (JVMS 2.11). A run that has ended, thrown or stopped makes none: its
    /// last event is answered again.
    ///
    /// # Errors
    ///
    /// Memory ran out. The configuration is as it was.
    #[tactic(auto, unfolding(crate::specs::Step::step_of))]
    pub fn step<F: CostFunction>(
        &mut self,
        alloc: Global,
        world: &World,
        model: &CostModel<F>,
    ) -> Result<Event, AllocError>
        requires spent { self.old.spent ≤ 2 ^ 127 }
        requires few { length self.old.here.heap < 2 ^ 32 }
        ensures step { IfOk result (λ event. step_of world.now (λ op. cost_at model.now op) self.old ≡ (event, self.new)) }
        ensures err { OnErr result (self.new ≡ self.old) }

        // A step takes one number of the heap at most, and costs no more than the dearest instruction.
        ensures heap { length self.new.here.heap ≤ length self.old.here.heap + 1 }
        ensures spent { self.new.spent ≤ self.old.spent + 1000000 }
    {
        match self.status {
            Status::Running => self.advance(alloc, world, model),
            Status::Ended => Ok(Event::Ended),
            Status::Thrown(thrown) => Ok(Event::Thrown(thrown)),
            Status::Stopped(stop) => Ok(Event::Stopped(stop)),
        }
    }
}
