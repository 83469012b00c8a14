//! Kinds of manifests.
ghost use Rattle.std.specs.Prelude.{◌≡◌};
ghost use Rattle.reg_names.specs.Kinds.{media_type_of, kind_named};

/// The kinds of manifests that a registry keeps (OCI Image Specification 1.1, "Media Types", and
/// Docker's manifest schema 2).
#[derive(Clone, Copy, Debug, PartialEq, Eq, PartialOrd, Ord)]
pub enum Kind {
    OciImage,
    OciIndex,
    DockerImage,
    DockerList,
}

impl Kind {
    /// The media type that names the kind.
    pub fn media_type(self) -> &'static str
        ensures { result.now ≡ media_type_of self }
    {
        match self {
            Kind::OciImage => "application/vnd.oci.image.manifest.v1+json",
            Kind::OciIndex => "application/vnd.oci.image.index.v1+json",
            Kind::DockerImage => "application/vnd.docker.distribution.manifest.v2+json",
            Kind::DockerList => "application/vnd.docker.distribution.manifest.list.v2+json",
        }
    }

    /// The kind that a media type names, byte for byte. It takes no memory.
    pub fn from_media_type(text: &str) -> Option<Kind>
        ensures { result ≡ kind_named text.now }
    {
        [
            Kind::OciImage,
            Kind::OciIndex,
            Kind::DockerImage,
            Kind::DockerList,
        ]
        .into_iter()
        .find(|kind| text == kind.media_type())
    }
}

/// No two kinds have one media type.
pub fn media_types_are_apart()
    ensures { (kind : Kind) → kind_named (media_type_of kind) ≡ Some kind }
{}
