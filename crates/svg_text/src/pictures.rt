use rp_base::Data;

/// How a shape is drawn: its class in the style sheet.
#[derive(Clone, Copy)]
pub enum Style {
    /// A lifeline, from its head down.
    Lifeline,
    /// The head of the lifeline of a caller.
    CallerHead,
    /// The head of the lifeline of a link or a core.
    OwnHead,
    /// The name in a head.
    Name,
    /// What is below the name in a head.
    Role,
    /// The number of a line.
    Count,
    /// What a line says, beside no lifeline.
    Aside,
    /// What a line says, left of its lifeline.
    LeftLabel,
    /// What a line says, right of its lifeline.
    RightLabel,
    /// Where a line is on its lifeline.
    Dot,
    /// A message from its send to its take.
    Arrow,
    /// A message from its send to where it was dropped.
    Dropped,
    /// A message of which only the one end is known.
    Loose,
    /// A stroke of the cross of a dropped message.
    Cross,
    /// The number of a message.
    Number,
    /// An incarnation opens.
    Opening,
    /// An incarnation closes.
    Closing,
    /// A core crashes.
    Crash,
    /// What is in the bar of an opening or a closing.
    BarText,
    /// What is in the bar of a crash.
    CrashText,
}

/// A shape of a picture. Lengths and places are in pixels from the left and the top.
#[derive(Drop)]
pub enum Shape {
    /// A line from one point to another.
    Line {
        style: Style,
        x1: u64,
        y1: u64,
        x2: u64,
        y2: u64,
    },
    /// A box by its upper left corner, its width and its height.
    Box {
        style: Style,
        x: u64,
        y: u64,
        width: u64,
        height: u64,
    },
    /// A text at the point that its style says: where it begins, ends or has its middle.
    Text {
        style: Style,
        x: u64,
        y: u64,
        text: Data,
    },
}

/// A picture: its size, and its shapes, of which a later one lies over an earlier one.
#[derive(Drop)]
pub struct Picture {
    pub width: u64,
    pub height: u64,
    pub shapes: Vec<Shape>,
}
