// Which bytes are characters of records, told of many at once.
ghost use Rattle.std.specs.Prelude.{◌≡◌};
ghost use Rattle.std.specs.List.{list_all};
ghost use Rattle.f66_tree.specs.Fielded.{is_character};

/// Whether all bytes of a text are characters: by the least and the greatest of them, which are found without a branch for each.
pub(crate) fn are_characters(text: &[u8]) -> bool
    ensures { result ≡ list_all is_character text.now }
{
    let mut least = b' ';
    let mut greatest = b' ';
    for i in 0..text.len() {
        least = least.min(text[i]);
        greatest = greatest.max(text[i]);
    }
    least >= 32 && greatest <= 126
}
