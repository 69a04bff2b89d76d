// The laws of version 2: its geometries are lawful and its images a shelf, so that what `view_laws` proves of any view holds of it, and it pays what a version
// owes `version_laws`, so that the demands hold of it. No code and no definitions to believe.
#![tactic(auto)]
