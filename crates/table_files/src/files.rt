ghost use Rattle.std.specs.Prelude.{◌≡◌, ◌≤◌};
ghost use Rattle.table_files.specs.Files as spec;

/// A file of the operations tables.
#[derive(Clone, Copy, Debug, PartialEq, Eq)]
pub(crate) enum File {
    Settings,
    Airports,
    Approaches,
    Alternates,
    Types,
    Tails,
    Uses,
    Distances,
    Routes,
    Mel,
    Pairs,
    Actors,
    Hours,
}

/// The files, in the order in which they are read.
pub(crate) const FILES: [File; 13] = [
    File::Settings,
    File::Airports,
    File::Approaches,
    File::Alternates,
    File::Types,
    File::Tails,
    File::Uses,
    File::Distances,
    File::Routes,
    File::Mel,
    File::Pairs,
    File::Actors,
    File::Hours,
];

impl File {
    /// Returns the file's name.
    pub(crate) fn name(self) -> &'static str
        ensures { result.now ≡ spec.name_of self }
    {
        match self {
            File::Settings => "settings.csv",
            File::Airports => "airports.csv",
            File::Approaches => "approaches.csv",
            File::Alternates => "alternates.csv",
            File::Types => "types.csv",
            File::Tails => "tails.csv",
            File::Uses => "uses.csv",
            File::Distances => "distances.csv",
            File::Routes => "routes.csv",
            File::Mel => "mel.csv",
            File::Pairs => "pairs.csv",
            File::Actors => "actors.csv",
            File::Hours => "hours.csv",
        }
    }
}
