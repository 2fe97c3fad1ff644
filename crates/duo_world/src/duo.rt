//! Two joined ends with connections, and the steps that were made with them.

ghost use Rattle.duo_world.specs.Holding.{DuoHolds, StandsForRun, end_of, flight_to, output_to};
ghost use Rattle.duo_world.specs.Stepping.{IsStepped, RunHolds, Steps};
ghost use Rattle.endpoint_run.specs.Answers.{run};
ghost use Rattle.mux_run.specs.Run.{terms_of};
ghost use Rattle.std.specs.Prelude.{◌≡◌, [], IfOk, OnErr, false, true};

use crate::ends::make_step;
use endpoint::Endpoint;
use endpoint_run::{DuoAnswer, Side, Step, StepList};
use mux_items::NONCE_SIZE;
use std::alloc::Global;
use std::marker::Model;
use wire_base::{OutOfMemory, Version};

/// Two ends with connections that are joined by two byte streams.
#[derive(Drop)]
pub struct Duo {
    alloc: Global,
    version: Version,
    nonce_a: [u8; NONCE_SIZE],
    nonce_b: [u8; NONCE_SIZE],
    a: Endpoint,
    b: Endpoint,
    steps: StepList,
    failed: bool,
}

impl Model for Duo {
    ghost use Rattle.call_table.specs.Codes.{coded_table};
    ghost use Rattle.duo_world.specs.Holding.{DuoHolds, DuoState};
    ghost use Rattle.endpoint_run.specs.contracts.steps.Step as step;
    ghost use Rattle.enumerables.specs.Codes.{coded_followed, coded_sequences};
    ghost use Rattle.marshalled_handles.specs.Codes.{coded_held, coded_made};
    ghost use Rattle.std.specs.Coded.{codes};

    ghost Value = { DuoState };

    ghost coded = { Prim.hlevel (codes, coded_table, coded_sequences, coded_followed, coded_made, coded_held, step.the_row.coded) };

    ghost use Rattle.duo_world.specs.Parts.{state_in};

    ghost view = { state_in };

    ghost invariant = { λ d. DuoHolds (state_in d) };
}

impl Duo {
    /// Two ends with their first bytes in flight. The nonces are those of A and of B.
    pub fn start(
        alloc: Global,
        version: Version,
        nonces: [[u8; NONCE_SIZE]; 2],
    ) -> Result<Duo, OutOfMemory>
        ensures fresh { IfOk result (λ d. (d.steps ≡ []) × (d.failed ≡ false) × (d.terms ≡ terms_of version nonces)) }
        ensures stands { IfOk result StandsForRun }
        ensures holds { IfOk result (λ d. RunHolds d.terms d.steps) }
    {
        let [nonce_a, nonce_b] = nonces;
        let a = Endpoint::start(alloc, version, nonce_a)?;
        let b = Endpoint::start(alloc, version, nonce_b)?;
        Ok(Duo {
            alloc,
            version,
            nonce_a,
            nonce_b,
            a,
            b,
            steps: StepList::new(alloc),
            failed: false,
        })
    }

    fn try_step(&mut self, step: Step) -> Result<DuoAnswer, OutOfMemory>
        requires { self.old.failed ≡ false }
        ensures ok { IfOk result (IsStepped self.old self.new step) }
        ensures err { OnErr result (self.new.failed ≡ true) }
    {
        self.failed = true;
        let reply = make_step(self.alloc, &mut self.a, &mut self.b, &step)?;
        self.steps.push(step)?;
        self.failed = false;
        Ok(reply)
    }

    /// Makes a step: a call, a delivery of at most so many of the bytes in flight to a side, or the end of the stream
    /// into a side. After a call or a delivery that side applies what is whole.
    pub fn step(&mut self, step: Step) -> DuoAnswer
        ensures { self.old.failed ≡ false → Steps self.old self.new step result }
    {
        if self.failed {
            return DuoAnswer::OutOfMemory;
        }
        match self.try_step(step) {
            Ok(reply) => reply,
            Err(_) => DuoAnswer::OutOfMemory,
        }
    }

    /// Makes all steps, in their order.
    pub fn run(
        alloc: Global,
        version: Version,
        nonces: [[u8; NONCE_SIZE]; 2],
        steps: StepList,
    ) -> Result<Duo, OutOfMemory>
        ensures stored { IfOk result (λ d. (d.steps ≡ steps) × (d.failed ≡ false) × (d.terms ≡ terms_of version nonces)) }
        ensures stands { IfOk result StandsForRun }
        ensures holds { IfOk result (λ d. RunHolds d.terms d.steps) }
    {
        let mut duo = Duo::start(alloc, version, nonces)?;
        for step in steps.into_vec() {
            duo.try_step(step)?;
        }
        Ok(duo)
    }

    /// The bytes that the other side emitted and that weren't delivered to this side, in their order.
    pub fn in_flight(&self, side: Side) -> &[u8]
        ensures output { result.now ≡ output_to side self.now }
        ensures flight { self.now.failed ≡ false → result.now ≡ flight_to side self.now.terms (run self.now.terms self.now.steps) }
    {
        match side {
            Side::A => self.b.pending_output(),
            Side::B => self.a.pending_output(),
        }
    }

    /// The end of a side.
    pub fn end(&self, side: Side) -> &Endpoint
        ensures end { result.now ≡ end_of side self.now }
        ensures holds { DuoHolds self.now }
    {
        match side {
            Side::A => &self.a,
            Side::B => &self.b,
        }
    }
}
