//! Laws of one end's items.

ghost use Rattle.std.specs.Prelude.{◌≡◌, ◌≤◌, ◌++◌, ℕ, List, length, take, true, false};
ghost use Rattle.wire_base.specs.declared.frame.Version.{Version};
ghost use Rattle.mux_items.specs.declared.channel.ChannelKey.{ChannelKey};
ghost use Rattle.mux_items.specs.Bodies.{is_one};
ghost use Rattle.mux_items.specs.Items.{Item, restricted, is_running};
ghost use Rattle.mux_items.specs.Lists.{written, window, is_offered, emitted, termination_emitted, taken, handed, read_bytes, unread};
ghost use Rattle.mux_items.specs.Kept.{next_key};
ghost use Rattle.mux_items.specs.Due.{sent, got, contents};
ghost use Rattle.mux_items.specs.Applying.{Allowed};
ghost use Rattle.mux_items.specs.Sums.{windows, credits};
ghost use Rattle.mux_items.specs.Order.{IsOrdered};

/// What was sent on a channel is the emitted front of what was written.
pub fn sent_is_emitted()
    ensures { (v : Version) (c : ChannelKey) (items : List Item) → contents c (sent v items) ≡ take (emitted v c items) (written c items) }
{}

/// What was taken from a channel is a front of the content that came on it.
pub fn taken_is_content()
    ensures { (v : Version) (c : ChannelKey) (items : List Item) → Allowed v items → (rest : List ℕ) × (taken v c items ++ rest ≡ contents c (got items)) }
{}

/// No more is handed over than was taken, and no more is emitted than was written.
pub fn counts_are_bounded()
    ensures handed { (v : Version) (c : ChannelKey) (items : List Item) → handed v c items ≤ length (taken v c items) }
    ensures emitted { (v : Version) (c : ChannelKey) (items : List Item) → emitted v c items ≤ length (written c items) }
{}

/// The bytes that reads answered are, in order, the taken ones that were handed over.
pub fn reads_answer_what_was_taken()
    ensures { (v : Version) (c : ChannelKey) (items : List Item) → read_bytes v c items ≡ take (handed v c items) (taken v c items) }
{}

/// A channel depends on the items that name it, the handshake and the end alone.
pub fn channels_are_apart()
    ensures written { (c : ChannelKey) (items : List Item) → written c (restricted c items) ≡ written c items }
    ensures window { (c : ChannelKey) (items : List Item) → window c (restricted c items) ≡ window c items }
    ensures emitted { (v : Version) (c : ChannelKey) (items : List Item) → emitted v c (restricted c items) ≡ emitted v c items }
    ensures taken { (v : Version) (c : ChannelKey) (items : List Item) → taken v c (restricted c items) ≡ taken v c items }
    ensures handed { (v : Version) (c : ChannelKey) (items : List Item) → handed v c (restricted c items) ≡ handed v c items }
    ensures unread { (v : Version) (c : ChannelKey) (items : List Item) → unread v c (restricted c items) ≡ unread v c items }
{}

/// In versions 2 and 3 no more is unread than the own window, whatever the peer sends.
pub fn window_is_kept()
    ensures { (v : Version) (c : ChannelKey) (items : List Item) → is_one v ≡ false → Allowed v items → length (unread v c items) ≤ window c items }
{}

/// Each own offer draws a channel that wasn't offered before.
pub fn offers_draw_new_channels()
    ensures { (v : Version) (items : List Item) → Allowed v items → is_offered (next_key items) items ≡ false }
{}

/// In versions 2 and 3 an end tells its own window whole. It acknowledges no more than its reads moved; while it runs
/// and its own termination isn't emitted, all of that.
pub fn credit_is_told()
    ensures window { (v : Version) (c : ChannelKey) (items : List Item) → is_one v ≡ false → windows c (sent v items) ≡ window c items }
    ensures at_most { (v : Version) (c : ChannelKey) (items : List Item) → credits c (sent v items) ≤ handed v c items }
    ensures exact { (v : Version) (c : ChannelKey) (items : List Item) → is_one v ≡ false → Allowed v items → is_running items ≡ true → termination_emitted v c items ≡ false → credits c (sent v items) ≡ handed v c items }
{}

/// The frames that an end sends on a channel come in their order, whatever its peer sends.
pub fn frames_come_in_order()
    ensures { (v : Version) (c : ChannelKey) (items : List Item) → Allowed v items → IsOrdered v c items }
{}
