//! Playing the events of a job on a rig.
ghost use Rattle.std.specs.Prelude.{◌≡◌, ◌≤◌};
ghost use Rattle.std.specs.Option.{option_to_list};
ghost use Rattle.records.specs.Fields.{records, taken};
ghost use Rattle.script.specs.Script.{event_of, events};
ghost use Rattle.job.specs.Play.{answered, called, fresh, played, plays, up_to};
ghost use Rattle.job.specs.Stands.{Room, Went, calls, stand};

use crate::counting::{brought_by, failed_by, is_nothing};
use law::{Answer, Call};
use map::Map;
use radio::Radio;
use records::Reader;
use rig::Rig;
use runs::make;
use script::Event;

/// A rig in play, and what is counted of it.
#[derive(Clone, Copy)]
pub(crate) struct Play {
    pub(crate) rig: Rig,
    /// The deliveries that brought a message.
    pub(crate) came: usize,
    /// The events that were refused.
    pub(crate) refused: usize,
}

impl Play {
    // Makes a call, and counts its answer.
    fn call<R: Radio>(&mut self, radio: &mut R, call: Call) -> Answer
        requires { Room self.old 1 }
        ensures went { Went self.old self.new (R.state radio.new) (called R.ways self.old.rig.map (stand self.old (R.state radio.old)) call) }
        ensures value { result ≡ answered R.ways self.old.rig.map (stand self.old (R.state radio.old)) call }
    {
        let answer = make(&mut self.rig, radio, call);
        self.came += brought_by(answer);
        self.refused += failed_by(answer);
        answer
    }

    // Up to so many deliveries, ending when nothing comes.
    fn deliver<R: Radio>(&mut self, radio: &mut R, times: u32)
        requires { Room self.old times }
        ensures { Went self.old self.new (R.state radio.new) (up_to R.ways self.old.rig.map times (stand self.old (R.state radio.old))) }
    {
        for _turn in 0..times {
            let answer = self.call(radio, Call::Deliver);
            if is_nothing(answer) {
                return;
            }
        }
    }

    fn play<R: Radio>(&mut self, radio: &mut R, event: Event)
        requires { Room self.old (calls event) }
        ensures { Went self.old self.new (R.state radio.new) (played R.ways self.old.rig.map event (stand self.old (R.state radio.old))) }
    {
        // A match and no closure: which event comes is data.
        match event {
            Event::Draw(node, number) => {
                let _ = self.call(radio, Call::Draw(node, number));
            }
            Event::Deliver(times) => self.deliver(radio, times),
            Event::Nudge(node) => {
                let _ = self.call(radio, Call::Nudge(node));
            }
        }
    }

    // Plays the event of a record, if it is one.
    fn take<R: Radio>(&mut self, radio: &mut R, bytes: &[u8])
        requires { Room self.old 4096 }
        ensures { Went self.old self.new (R.state radio.new) (plays R.ways self.old.rig.map (option_to_list (event_of (taken bytes.now))) (stand self.old (R.state radio.old))) }
    {
        if let Some(event) = Event::from_record(bytes) {
            self.play(radio, event);
        }
    }
}

/// Plays the events of a job on a new rig on this map.
pub(crate) fn play_all<R: Radio>(map: &Map, radio: &mut R, job: &[u8]) -> Play
    requires { records job.now ≤ 4096 }
    ensures map { result.rig.map ≡ map.now }
    ensures after { stand result (R.state radio.new) ≡ plays R.ways map.now (events job.now) (fresh (R.state radio.old)) }
{
    let mut rig = Rig::new();
    rig.open(map);
    let mut play = Play {
        rig,
        came: 0,
        refused: 0,
    };
    for record in Reader::new(job) {
        play.take(radio, record);
    }
    play
}
