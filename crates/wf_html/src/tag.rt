//! The tags that a page uses, each with its attributes.
ghost use Rattle.std.specs.Prelude.{◌≡◌};
ghost use Rattle.wf_html.specs.Tags.{box_text, close_text, mark_text, open_text};

use crate::style::HEAD;

/// How something looks that has a status.
#[derive(Clone, Copy)]
pub enum Look {
    Succeeded,
    Failed,
    Skipped,
    TimedOut,
    Cancelled,
    /// It has several statuses.
    Several,
    /// It has none.
    Absent,
}

/// A tag with its attributes. None takes a text, so what stands between `<` and `>` is always a literal of this file.
#[derive(Clone, Copy)]
pub enum Tag {
    /// The whole of a page, which begins with what isn't seen of it: its style, and that nothing may run in it or be fetched for it.
    Page,
    /// The title of the window.
    Title,
    /// All that is seen.
    Body,
    /// What is said of the run as a whole.
    Header,
    /// The name of the run.
    Heading,
    /// Members with their values.
    Facts,
    /// The name of a member.
    Term,
    /// The value of a member.
    Value,
    /// A text as it stands, such as a value in JSON.
    Data,
    /// A line of words.
    Line,
    /// The actions of a graph.
    Graph,
    /// Actions of a graph that stand side by side.
    Level,
    /// The name of an action.
    Name,
    /// What an action does.
    Kind,
    /// What an action waits for.
    After,
    /// A status that is waited for.
    Wanted,
    /// What is shown on demand.
    Fold,
    /// What stands for it until then.
    Summary,
    /// What happened, in a word or a number.
    Code,
    /// The iterations that a row is of.
    Place,
    /// The rows of an action that has several.
    Rows,
    /// The graphs that a container holds.
    Branches,
    /// One of them.
    Branch,
    /// When it is taken.
    Case,
    /// A row that is the old one.
    Kept,
    /// A container that was closed again.
    Closed,
    /// A row that was done again.
    Redone,
    /// An action.
    Box(Look),
    /// A word that stands for a status.
    Mark(Look),
}

fn box_text(look: Look) -> &'static str
    ensures { result.now ≡ box_text look }
{
    match look {
        Look::Succeeded => "<section class=\"action succeeded\">",
        Look::Failed => "<section class=\"action failed\">",
        Look::Skipped => "<section class=\"action skipped\">",
        Look::TimedOut => "<section class=\"action timed-out\">",
        Look::Cancelled => "<section class=\"action cancelled\">",
        Look::Several => "<section class=\"action several\">",
        Look::Absent => "<section class=\"action absent\">",
    }
}

fn mark_text(look: Look) -> &'static str
    ensures { result.now ≡ mark_text look }
{
    match look {
        Look::Succeeded => "<span class=\"mark succeeded\">",
        Look::Failed => "<span class=\"mark failed\">",
        Look::Skipped => "<span class=\"mark skipped\">",
        Look::TimedOut => "<span class=\"mark timed-out\">",
        Look::Cancelled => "<span class=\"mark cancelled\">",
        Look::Several => "<span class=\"mark several\">",
        Look::Absent => "<span class=\"mark absent\">",
    }
}

impl Tag {
    /// What is written as it opens.
    pub fn open_text(self) -> &'static str
        ensures { result.now ≡ open_text self }
    {
        match self {
            Tag::Page => HEAD,
            Tag::Title => "<title>",
            Tag::Body => "<body>",
            Tag::Header => "<header>",
            Tag::Heading => "<h1>",
            Tag::Facts => "<dl>",
            Tag::Term => "<dt>",
            Tag::Value => "<dd>",
            Tag::Data => "<pre>",
            Tag::Line => "<p>",
            Tag::Graph => "<div class=\"graph\">",
            Tag::Level => "<div class=\"level\">",
            Tag::Name => "<h2>",
            Tag::Kind => "<span class=\"kind\">",
            Tag::After => "<p class=\"after\">",
            Tag::Wanted => "<i>",
            Tag::Fold => "<details>",
            Tag::Summary => "<summary>",
            Tag::Code => "<code>",
            Tag::Place => "<span class=\"place\">",
            Tag::Rows => "<div class=\"rows\">",
            Tag::Branches => "<div class=\"branches\">",
            Tag::Branch => "<div class=\"branch\">",
            Tag::Case => "<p class=\"case\">",
            Tag::Kept => "<span class=\"kept\">",
            Tag::Closed => "<span class=\"closed\">",
            Tag::Redone => "<span class=\"redone\">",
            Tag::Box(look) => box_text(look),
            Tag::Mark(look) => mark_text(look),
        }
    }

    /// What is written as it closes.
    pub fn close_text(self) -> &'static str
        ensures { result.now ≡ close_text self }
    {
        match self {
            Tag::Page => "</html>\n",
            Tag::Title => "</title>",
            Tag::Body => "</body>\n",
            Tag::Header => "</header>\n",
            Tag::Heading => "</h1>",
            Tag::Facts => "</dl>",
            Tag::Term => "</dt>",
            Tag::Value => "</dd>",
            Tag::Data => "</pre>",
            Tag::Line => "</p>",
            Tag::Graph => "</div>\n",
            Tag::Level => "</div>\n",
            Tag::Name => "</h2>",
            Tag::Kind => "</span>",
            Tag::After => "</p>",
            Tag::Wanted => "</i>",
            Tag::Fold => "</details>\n",
            Tag::Summary => "</summary>",
            Tag::Code => "</code>",
            Tag::Place => "</span>",
            Tag::Rows => "</div>",
            Tag::Branches => "</div>",
            Tag::Branch => "</div>",
            Tag::Case => "</p>",
            Tag::Kept => "</span>",
            Tag::Closed => "</span>",
            Tag::Redone => "</span>",
            Tag::Box(_) => "</section>\n",
            Tag::Mark(_) => "</span>",
        }
    }
}
