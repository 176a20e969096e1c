// A course of a script, run on a module up to the line that the check named: without events, or before each line with
// the highest frequency that is taken, where one is measured, and then a trigger. These are the two courses that the
// check follows.
use crate::operation;
use lockin::{Event, Module, Refusal, Report};
use outcome::PlacedRefusal;
use terminal::Output;

// The module's serial number.
const SERIAL: u32 = 0;

// The module's port.
const PORT: u32 = state::GPIB as u32;

// Which course is run, and how.
#[derive(Clone, Copy)]
pub struct Course {
    // Whether events happen before each line.
    pub has_events: bool,
    // Whether each operation is written to standard output.
    pub prints: bool,
    // The line that the check named, from 1.
    pub line: usize,
    // The place that the check named.
    pub place: u32,
}

// A module, its traces and its reply buffer.
#[derive(Drop)]
pub struct Bench<'s> {
    // The module.
    module: Module,
    // Trace 1.
    one: &'s mut [u32],
    // Trace 2.
    two: &'s mut [u32],
    // The reply buffer.
    reply: &'s mut [u8],
}

impl<'s> Bench<'s> {
    // A fresh module. What the traces hold is never read: a trace read sends only points that were stored since.
    pub fn new(one: &'s mut [u32], two: &'s mut [u32], reply: &'s mut [u8]) -> Self {
        Bench {
            module: lockin::start(SERIAL, PORT, one, two).after,
            one,
            two,
            reply,
        }
    }

    // Hands an event to the module.
    fn take_event(&mut self, e: Event) {
        self.module = lockin::take_event(self.module, e, self.one, self.two).after;
    }

    // Hands a line to the module.
    fn take_line(&mut self, text: &[u8]) -> Report {
        let called = lockin::take_line(self.module, text, self.one, self.two, self.reply);
        self.module = called.after;
        called.report
    }
}

impl Course {
    // The event of the highest frequency that is taken, where one is measured.
    fn measure(self, out: &mut Output<'_, '_, impl Print>, bench: &mut Bench<'_>) {
        let settings = bench.module.state.settings;
        if settings::is_internal(settings) {
            return;
        }
        let frequency = extreme_courses::highest(settings::value_of(settings, settings::HARM));
        if self.prints {
            operation::write_measured(out, frequency);
        }
        bench.take_event(Event::Measured(frequency));
    }

    // The trigger event.
    fn trigger(self, out: &mut Output<'_, '_, impl Print>, bench: &mut Bench<'_>) {
        if self.prints {
            operation::write_trigger(out);
        }
        bench.take_event(Event::Trigger);
    }

    // The events before a line, and the line.
    fn run_line(
        self,
        out: &mut Output<'_, '_, impl Print>,
        bench: &mut Bench<'_>,
        text: &[u8],
    ) -> Report {
        if self.has_events {
            self.measure(out, bench);
            self.trigger(out, bench);
        }
        let report = bench.take_line(text);
        if self.prints {
            operation::write_line(out, text, report.length);
        }
        report
    }

    // Whether a line answers refusal 3 at the named place.
    fn is_refused(self, report: Report) -> bool {
        report.answer
            == Err(PlacedRefusal {
                refusal: Refusal::NotAllowed,
                place: self.place,
            })
    }

    // Runs the course up to the named line, and gives whether that line answers refusal 3 at the named place.
    pub fn run(
        self,
        out: &mut Output<'_, '_, impl Print>,
        bench: &mut Bench<'_>,
        script: &[u8],
    ) -> bool {
        let mut line = 1;
        let mut rest = script;
        while !rest.is_empty() {
            let n = split::span_of(rest, b'\n');
            let report = self.run_line(out, bench, &rest[..n]);
            if line == self.line {
                return self.is_refused(report);
            }
            line += 1;
            rest = terminal::bytes_from(rest, n + 1);
        }
        false
    }
}
