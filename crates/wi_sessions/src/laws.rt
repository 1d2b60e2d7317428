//! Laws of the definitions. The contract of each function is the law.

ghost use Rattle.wi_sessions.specs.Pictures.Laws.{AnyCells, PictureIsShown};

/// Whichever cells are looked at, what has changed since a picture is the same, as long as the picture is right in all
/// others. Once that is put into the picture, it has what is shown.
pub fn change_lists()
    ensures any { AnyCells }
    ensures shown { PictureIsShown }
{}
