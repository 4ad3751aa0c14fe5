// Commands taken off bytes.
ghost use Rattle.std.specs.Prelude.{◌≡◌, false, Ok as Right, Err as Wrong, MatchOption, MatchResult};
ghost use Rattle.sheets.specs.Commands.{first, is_meet};
ghost use Rattle.sheets.specs.declared.command.Command.TheVariants.{Meet};

use crate::command::Command;
use crate::teams::Teams;
use groups::refusal::Refusal;

// The first command, and the bytes after it.
pub(crate) fn first_command(bytes: &[u8]) -> Result<(Command, &[u8]), Refusal>
    ensures { MatchResult result (λ f. first bytes.now ≡ Right (f.0, f.1.now)) (λ q. first bytes.now ≡ Wrong q) }
{
    match bytes {
        [0x01, side, rest @ ..] => Ok((Command::Side(*side), rest)),
        [0x02, round, rest @ ..] => Ok((Command::Round(*round), rest)),
        [0x03, venue, lower, higher, rest @ ..] => Ok((
            Command::Meet {
                venue: *venue,
                lower: *lower,
                higher: *higher,
            },
            rest,
        )),
        [0x04, rest @ ..] => Ok((Command::Close, rest)),
        [0x05, low, high, rest @ ..] => {
            Ok((Command::End(u16::from_le_bytes([*low, *high])), rest))
        }
        [] | [0x01 | 0x02 | 0x03 | 0x05, ..] => Err(Refusal::Operands),
        _ => Err(Refusal::Command),
    }
}

// The venue, the teams and the bytes after a MEET that stands first, or None where no MEET does.
pub(crate) fn first_meeting(bytes: &[u8]) -> Option<(u8, Teams, &[u8])>
    ensures { MatchOption result (is_meet (first bytes.now) ≡ false) (λ m. first bytes.now ≡ Right (Meet m.0 m.1.lower m.1.higher, m.2.now)) }
{
    match first_command(bytes) {
        Ok(
            (
                Command::Meet {
                    venue,
                    lower,
                    higher,
                },
                rest,
            ),
        ) => Some((venue, Teams { lower, higher }, rest)),
        _ => None,
    }
}
