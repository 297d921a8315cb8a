// What a step answers (01, 'One step').
ghost use Rattle.std.specs.Prelude.{◌≤◌, ◌≡◌};
ghost use Rattle.controller.specs.Command.{command_number, command_channel};
ghost use Rattle.controller.specs.Refusals.{refusal};
ghost use Rattle.controller.specs.Rules.{FitsK1, accepted_told, keeps_bridge};
ghost use Rattle.controller.specs.Step.{outcome_told, answering, moved, acts_on};
ghost use Rattle.pair.specs.Marks.{alarm};
ghost use Rattle.request.specs.Command.{fate_number};

use crate::acceptance::accepting;
use crate::asked::{asked, k1_of};
use crate::codes::NOTHING;
use crate::command::{Command, Commands, counts, held_after, number};
use crate::local::{decided, local_request};
use crate::numbered::Received;
use crate::section::protection;
use crate::wait::{left_after, wait_of, waiting};
use crate::{Accepted, Controller, Outcome};
use pair::mark::alarm;
use request::command::Fate;
use request::{Request, bridge, fate, selector};

// Where NR is sent (Table 7-4 as corrected in 003).
fn keeps_bridge(sent: Request) -> bool
    ensures { result ≡ keeps_bridge sent }
{
    sent.code == NOTHING
}

fn answering(
    s: Controller,
    far: Accepted,
    sent: Request,
    wait: u16,
    held: u8,
    fate: Fate,
) -> Outcome
    requires { FitsK1 sent × (far.request.channel ≤ 15) }
    ensures { outcome_told result ≡ answering s (accepted_told far) sent wait held (fate_number fate) }
{
    let k1 = k1_of(sent);
    let bridge = bridge(far.request.channel, sent.channel, keeps_bridge(sent));
    let controller = Controller {
        k1: far.k1,
        k2: far.k2,
        sent: k1,
        left: left_after(sent, wait),
        held,
        ..s
    };
    Outcome {
        controller,
        k1,
        k2: bridge * 16 + 0b1000,
        bridge,
        selector: selector(sent.channel, far.bridged),
        mark: far.mark,
        fate,
    }
}

pub(crate) fn moved(
    s: Controller,
    received: Received,
    conditions: &[u8],
    command: Option<Command>,
) -> Outcome
    requires { refusal s conditions.now (command_number command) (command_channel command) ≡ 0 }
    ensures { outcome_told result ≡ moved s received.k1 received.k2 (acts_on (alarm s.n received.k1 received.k2) conditions.now) (command_number command) (command_channel command) }
{
    let handed = conditions[0];
    let protect = protection(alarm(received.k2), handed);
    let last = asked(s.sent);
    let far = accepting(s, protect == 2, received);
    let commands = Commands::of(s, last, command);
    let stands = commands.stands;
    let held = held_after(s.hold, stands.request);
    let now = wait_of(s, last, number(command));
    let wait = waiting(now, last);
    let near = local_request(s.mask, last, protect, conditions, stands, wait);
    let sent = decided(far.request, near);
    let counted = counts(s.hold, sent, commands.new);
    let fate = fate(number(command), commands.replaced, counted);
    answering(s, far, sent, now, held, fate)
}
