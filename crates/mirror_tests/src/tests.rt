mod mirrors;
