//! The table of routes.
ghost use Rattle.reg_routes.specs.Targets.{LeadsToBase, LeadsToTags, LeadsToManifests, LeadsToUploads};
ghost use Rattle.reg_routes.specs.Targets.{LeadsToUpload, LeadsToBlobs, LeadsOnlySo};

/// The paths of each route, by their ends, and the place of the repository's name in each. No other
/// path has a route.
pub fn paths_lead_to_routes()
    ensures base { LeadsToBase }
    ensures tags { LeadsToTags }
    ensures manifests { LeadsToManifests }
    ensures uploads { LeadsToUploads }
    ensures upload { LeadsToUpload }
    ensures blobs { LeadsToBlobs }
    ensures only { LeadsOnlySo }
{}
