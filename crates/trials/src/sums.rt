//! What two ends and the frames between them show of a channel.

use crate::channels::Channel;
use crate::flight::{Brings, SeenFrame};
use duo_world::{ChannelView, Endpoint, Phase, Side, Tally};
use wire_base::EndState;

/// An end, its side, and those of its frames that the other end doesn't have whole.
#[derive(Clone, Copy)]
pub struct Seen<'a> {
    pub side: Side,
    pub end: &'a Endpoint,
    pub ahead: &'a [SeenFrame],
}

fn live(view: Option<ChannelView>) -> Option<ChannelView> {
    match view {
        Some(view) if view.phase == Phase::Live => Some(view),
        _ => None,
    }
}

impl Seen<'_> {
    fn is_running(&self) -> bool {
        self.end.state() == EndState::Running
    }

    /// The channel where it is live.
    fn live_view(&self, channel: &Channel) -> Option<ChannelView> {
        live(self.end.view(channel.key_at(self.side)))
    }

    fn tally(&self, channel: &Channel) -> Option<Tally> {
        self.end.tally(channel.key_at(self.side))
    }

    /// The bytes of content in flight on a channel.
    fn content(&self, channel: &Channel) -> u64 {
        let mut sum: u64 = 0;
        for frame in self.ahead {
            if let Brings::Content(size) = frame.brings
                && frame.is_on(channel, self.side)
            {
                sum = sum.saturating_add(size);
            }
        }
        sum
    }

    /// The bytes that acknowledgements in flight tell of on a channel.
    fn acknowledged(&self, channel: &Channel) -> u64 {
        let mut sum: u64 = 0;
        for frame in self.ahead {
            if let Brings::Acknowledgement(count) = frame.brings
                && frame.is_on(channel, self.side)
            {
                sum = sum.saturating_add(count);
            }
        }
        sum
    }
}

/// A channel from the end that writes to the end that reads, in numbers of bytes: `window` is the reader's,
/// `granted` what the writer may emit, `content` and `acknowledged` are in flight.
#[derive(Clone, Copy, Debug)]
pub struct Direction {
    pub window: u64,
    pub granted: Option<u64>,
    pub written: u64,
    pub emitted: u64,
    pub content: u64,
    pub taken: u64,
    pub unread: u64,
    pub handed: u64,
    pub acknowledged: u64,
}

impl Direction {
    /// The window is shared out: what the writer may still emit, the content in flight, what is unread, and what
    /// acknowledgements in flight give back. Version 1 has no windows.
    pub fn keeps_credit(&self) -> bool {
        let Some(granted) = self.granted else {
            return true;
        };
        let used = self.content as u128 + self.unread as u128 + self.acknowledged as u128;
        self.emitted <= granted
            && self.window as u128 + self.emitted as u128 == granted as u128 + used
    }

    /// What was emitted is in flight, unread or handed over.
    pub fn keeps_content(&self) -> bool {
        self.emitted as u128 == self.content as u128 + self.taken as u128
            && self.taken as u128 == self.unread as u128 + self.handed as u128
    }

    /// All that was written was emitted, taken and handed over.
    pub fn is_done(&self) -> bool {
        self.written == self.emitted && self.emitted == self.taken && self.taken == self.handed
    }
}

/// What both ends tell of a channel that is live at both.
fn direction_between(writer: Seen<'_>, reader: Seen<'_>, channel: &Channel) -> Option<Direction> {
    let from = writer.live_view(channel)?;
    let to = reader.live_view(channel)?;
    let sent = writer.tally(channel)?;
    let came = reader.tally(channel)?;
    Some(Direction {
        window: channel.window_at(reader.side) as u64,
        granted: from.granted,
        written: sent.written,
        emitted: from.emitted,
        content: writer.content(channel),
        taken: came.taken,
        unread: to.unread as u64,
        handed: came.handed,
        acknowledged: reader.acknowledged(channel),
    })
}

/// A direction of a channel that is live at both ends, which run.
pub fn direction_of(writer: Seen<'_>, reader: Seen<'_>, channel: &Channel) -> Option<Direction> {
    if writer.is_running() && reader.is_running() {
        direction_between(writer, reader, channel)
    } else {
        None
    }
}
