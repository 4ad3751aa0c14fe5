// The questions of each command, and what is noted of it.
ghost use Rattle.std.specs.Prelude.{◌≡◌, ◌<◌, ◌≤◌, Bool, List, [], ◌∷◌, IfOk, Some as Answer, None as NoAnswer, MatchResult};
ghost use Rattle.sheets.specs.Judgements.{everyone, question};
ghost use Rattle.sheets.specs.Meetings.{last_round, meetings, any, in_round};
ghost use Rattle.sheets.specs.Tables.{Keeps};
ghost use Rattle.sheets.specs.declared.command.Command.{Command as ReadCommand};
ghost use Rattle.sheets.specs.declared.command.Command.TheVariants.{Meet as MeetingRead};
ghost use Rattle.sheets.specs.declared.stage.Stage.TheVariants.{Open as InRound};

use crate::command::Command;
use crate::marks::Marks;
use crate::reader::Reader;
use crate::reader::meeting::{Meeting, OpenRound};
use crate::stage::Stage;
use groups::group::is_order;
use groups::refusal::Refusal;

impl Reader {
    pub(crate) fn new() -> Reader
        ensures { Keeps result [] }
    {
        Reader {
            stage: Stage::Start,
            rounds: Marks::new(),
            venues: Marks::new(),
            met: Marks::new(),
            free: 0,
        }
    }

    // A meeting in an open round, or the first no to it.
    fn meeting(
        &self,
        current: OpenRound,
        venue: u8,
        lower: u8,
        higher: u8,
    ) -> Result<Meeting, Refusal>
        ensures fits { IfOk result (λ m. (m.venue < current.side) × (m.lower < m.higher) × (m.higher ≤ current.side)) }
        ensures same { IfOk result (λ m. (m.round ≡ current.round) × (m.venue ≡ venue) × (m.lower ≡ lower) × (m.higher ≡ higher)) }
        ensures asked { (past : List ReadCommand) → Keeps self.now past → self.now.stage ≡ InRound current.side current.round → MatchResult result (λ _. question past (MeetingRead venue lower higher) ≡ NoAnswer) (λ q. question past (MeetingRead venue lower higher) ≡ Answer q) }
    {
        let OpenRound { side, round } = current;
        if venue >= side || venue < self.free || lower >= higher || higher > side {
            return Err(Refusal::Range);
        }
        if self.rounds.has(round, lower) || self.rounds.has(round, higher) {
            return Err(Refusal::Round);
        }
        if self.venues.has(venue, lower) || self.venues.has(venue, higher) {
            return Err(Refusal::Venue);
        }
        if self.met.has(lower, higher) {
            return Err(Refusal::Met);
        }
        Ok(Meeting {
            round,
            venue,
            lower,
            higher,
        })
    }

    // Whether all teams have played in an open round.
    fn all_played(&self, current: OpenRound) -> bool
        ensures { (past : List ReadCommand) → Keeps self.now past → result ≡ everyone current.side (λ u. any (in_round current.round u) (meetings past)) }
    {
        (0..current.side + 1).all(|team| self.rounds.has(current.round, team))
    }

    // Notes a meeting of the open round.
    fn note(&mut self, meeting: Meeting)
        ensures same { self.new.stage ≡ self.old.stage }
        ensures noted { (past : List ReadCommand) → Keeps self.old past → last_round past ≡ meeting.round → Keeps self.new (MeetingRead meeting.venue meeting.lower meeting.higher ∷ past) }
    {
        let Meeting {
            round,
            venue,
            lower,
            higher,
        } = meeting;
        self.rounds.add(round, lower);
        self.rounds.add(round, higher);
        self.venues.add(venue, lower);
        self.venues.add(venue, higher);
        self.met.add(lower, higher);
        self.free = venue + 1;
    }

    // Reads a command: the first question that is answered no, or none, and then it is noted.
    pub(crate) fn step(&mut self, command: Command) -> Result<(), Refusal>
        ensures { (past : List ReadCommand) → Keeps self.old past → MatchResult result (λ _. (question past command ≡ NoAnswer) × Keeps self.new (command ∷ past)) (λ q. question past command ≡ Answer q) }
    {
        match (self.stage, command) {
            (Stage::Start, Command::Side(side)) => {
                if !is_order(side) {
                    return Err(Refusal::Range);
                }
                self.stage = Stage::Between { side, closed: 0 };
            }
            (Stage::Between { side, closed }, Command::Round(round)) => {
                if closed >= side {
                    return Err(Refusal::Turn);
                }
                if round != closed {
                    return Err(Refusal::Range);
                }
                self.free = 0;
                self.stage = Stage::Open { side, round };
            }
            (
                Stage::Open { side, round },
                Command::Meet {
                    venue,
                    lower,
                    higher,
                },
            ) => {
                let meeting = self.meeting(OpenRound { side, round }, venue, lower, higher)?;
                self.note(meeting);
            }
            (Stage::Open { side, round }, Command::Close) => {
                if !self.all_played(OpenRound { side, round }) {
                    return Err(Refusal::Idle);
                }
                self.stage = Stage::Between {
                    side,
                    closed: round + 1,
                };
            }
            (Stage::Between { side, closed }, Command::End(count)) => {
                if closed != side {
                    return Err(Refusal::Turn);
                }
                if count != side as u16 * (side as u16 + 1) / 2 {
                    return Err(Refusal::Count);
                }
                self.stage = Stage::Done;
            }
            _ => return Err(Refusal::Turn),
        }
        Ok(())
    }
}
