//! What a picture is asked to be.
use tx_cut::Cut;

/// What a picture is.
#[derive(Clone, Copy, Debug, PartialEq, Eq)]
pub enum PictureForm {
    /// Lines of text.
    Text,
    /// An SVG.
    Drawing,
    /// An HTML page, with the machine's steps.
    Page,
}

/// What a picture shows, and how.
#[derive(Clone, Copy, Debug, PartialEq, Eq)]
pub struct PictureOptions<'a> {
    pub form: PictureForm,
    /// Whether with the machine's steps, each at the line that made it. A page has them always.
    pub machine: bool,
    /// How many places a line of text is to have at most; as many as it takes where nobody says.
    pub width: Option<usize>,
    /// Which lines, sessions and keys a text or a drawing shows. A page shows all.
    pub cut: Cut<'a>,
}

impl PictureOptions<'_> {
    /// Text of the whole run, without the machine's steps.
    pub const TEXT: PictureOptions<'static> = PictureOptions {
        form: PictureForm::Text,
        machine: false,
        width: None,
        cut: Cut::ALL,
    };
}
