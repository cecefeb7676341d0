//! The benchmarks.

/// A benchmark. `n` is the size of its input.
#[derive(Clone, Copy)]
pub enum Benchmark {
    /// With an empty cache, whether an instance fits where one of the same type in another
    /// collection is asked for. They export n functions, each an entry of its own, over one list.
    Instances,
    /// The same, with a cache that has the pair.
    AskedAgain,
    /// With an empty cache, whether a value of the nth tuple fits where the nth tuple
    /// of another collection is asked for. The first is a pair of bytes, and each next
    /// one a pair of the one before.
    TupleChain,
    /// With an empty cache, whether the nth instance fits where the nth instance
    /// of another collection is asked for. The first exports a function, and each
    /// next one the one before twice.
    InstanceChain,
    /// Hands n instances to a new aggregator, and then n of a greater version on the same tracks,
    /// with one checker, whose cache is empty at first. They are of two collections.
    TwoVersions,
    /// Whether a component fits a target world of the same n imports and n exports, all functions.
    ValidatePlain,
    /// The same with instances, whose names have a greater version on
    /// their track in the target world.
    ValidateVersions,
    /// Puts n names with versions into a new map.
    Insert,
    /// Gets the value of each of n names.
    GetExact,
    /// Gets the value of each of n names by a name with a greater version on its track.
    GetTrack,
    /// With an empty cache, that a list of lists, n deep, doesn't fit where one is asked
    /// for that has other elements.
    RefusalAtDepth,
    /// Hands n instances to a new aggregator under one name. Each exports one function, under a
    /// name of its own, so that the import has one export more after each.
    GrowingImport,
    /// The same with instances of interfaces that the name identifies.
    GrowingIdentified,
}

impl Benchmark {
    /// The benchmark of a name.
    pub fn named(name: &str) -> Option<Benchmark> {
        match name {
            "1-subtype-instances" => Some(Benchmark::Instances),
            "1b-asked-again" => Some(Benchmark::AskedAgain),
            "2-tuple-chain" => Some(Benchmark::TupleChain),
            "2b-instance-chain" => Some(Benchmark::InstanceChain),
            "3-aggregate-two-versions" => Some(Benchmark::TwoVersions),
            "4a-validate-plain" => Some(Benchmark::ValidatePlain),
            "4b-validate-versions" => Some(Benchmark::ValidateVersions),
            "5a-namemap-insert" => Some(Benchmark::Insert),
            "5b-namemap-get-exact" => Some(Benchmark::GetExact),
            "5c-namemap-get-track" => Some(Benchmark::GetTrack),
            "6-refusal-at-depth" => Some(Benchmark::RefusalAtDepth),
            "7-growing-import" => Some(Benchmark::GrowingImport),
            "7b-growing-identified" => Some(Benchmark::GrowingIdentified),
            _ => None,
        }
    }

    /// The name of the benchmark.
    pub fn name(self) -> &'static str {
        match self {
            Benchmark::Instances => "1-subtype-instances",
            Benchmark::AskedAgain => "1b-asked-again",
            Benchmark::TupleChain => "2-tuple-chain",
            Benchmark::InstanceChain => "2b-instance-chain",
            Benchmark::TwoVersions => "3-aggregate-two-versions",
            Benchmark::ValidatePlain => "4a-validate-plain",
            Benchmark::ValidateVersions => "4b-validate-versions",
            Benchmark::Insert => "5a-namemap-insert",
            Benchmark::GetExact => "5b-namemap-get-exact",
            Benchmark::GetTrack => "5c-namemap-get-track",
            Benchmark::RefusalAtDepth => "6-refusal-at-depth",
            Benchmark::GrowingImport => "7-growing-import",
            Benchmark::GrowingIdentified => "7b-growing-identified",
        }
    }

    /// How many operations one run has at this size.
    pub fn operations(self, n: u32) -> u64 {
        match self {
            Benchmark::AskedAgain
            | Benchmark::TupleChain
            | Benchmark::InstanceChain
            | Benchmark::RefusalAtDepth => 1,
            Benchmark::TwoVersions | Benchmark::ValidatePlain | Benchmark::ValidateVersions =>
                u64::from(n) * 2,
            Benchmark::Instances
            | Benchmark::Insert
            | Benchmark::GetExact
            | Benchmark::GetTrack
            | Benchmark::GrowingImport
            | Benchmark::GrowingIdentified => u64::from(n),
        }
    }
}
