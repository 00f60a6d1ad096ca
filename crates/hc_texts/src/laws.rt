//! Laws of the definitions in `specs/`, as the contracts of functions that do nothing.
ghost use Rattle.hc_texts.specs.Laws.{DroppedTexts, EditedTexts, ListedTexts, NewTexts, PutTexts};

/// The root alone has no text.
pub fn new_has_none()
    ensures { NewTexts }
{}

/// The lines of a text are put where the text is.
pub fn put_stands()
    ensures { PutTexts }
{}

/// The lines of an edited text are put where the text is.
pub fn edited_stands()
    ensures { EditedTexts }
{}

/// A file without a text, and a directory, leave the texts that are there.
pub fn listed_stands()
    ensures { ListedTexts }
{}

/// What is taken away of a world is forgotten.
pub fn dropped_stands()
    ensures { DroppedTexts }
{}
